//! How large the graph of a range is.

ghost use Rattle.std.specs.Prelude.{◌≡◌, ◌*◌, length, IfOk};
ghost use Rattle.cob_tree.specs.declared.program.Program.{Program};
ghost use Rattle.flow_graph.specs.Counts.{CountsTo};
ghost use Rattle.flow_graph.specs.Reaching.{AreReachedIn, Begins, IsRangeIn};
ghost use Rattle.pending_returns.specs.levels.Reach.{IsMarked};
ghost use Rattle.flow_graph.specs.label_trees.Node.{IsWhole};
ghost use Rattle.flow_graph.specs.range_sizes.Cache.{IsKnown};
ghost use Rattle.flow_graph.specs.range_sizes.Sizing.{IsSizeIn};

use crate::first_of;
use crate::range_sizes::cache::TreeSizeCache;
use crate::range_sizes::visiting::visit_label;
use cob_base::NoMemory;
use cob_tree::Range;
use pending_returns::levels::Reach;
use statement_lowering::LoweringContext;
use statement_lowering::continuations::Continuation;
use std::alloc::Global;

/// The labels that are reached in the range from this one, and the statements of their trees.
fn size_from(
    alloc: Global,
    reach: &mut Reach,
    known: &mut TreeSizeCache,
    spots: &[Continuation<'_>],
    entry: u32,
    range: Range,
    telling: &LoweringContext<'_>,
) -> Result<u64, NoMemory>
    requires marked { IsMarked reach.old.places.items reach.old.marks.items }
    requires whole { IsWhole telling.now spots.now }
    requires known { IsKnown telling.now spots.now known.old }
    requires size { length reach.old.marks.items ≡ 3 * length spots.now }
    requires entry { Begins telling.now spots.now range entry }
    requires range { (program : Program) × IsRangeIn telling.now spots.now range program }
    ensures reach { IfOk result (λ size. AreReachedIn telling.now spots.now range
        reach.new.places.items) }
    ensures counts { IfOk result
        (CountsTo telling.now spots.now range reach.new.places.items) }
    ensures known { IfOk result (λ size. IsKnown telling.now spots.now known.new) }
    ensures marked { IsMarked reach.new.places.items reach.new.marks.items }
    ensures size { length reach.new.marks.items ≡ length reach.old.marks.items }
{
    reach.clear();
    reach.visit(entry)?;
    let mut count = 0u64;
    for at in 0..reach.marks.len() {
        if at >= reach.places.len() {
            return Ok(count);
        }
        let label = reach.places[at];
        let size = visit_label(alloc, reach, known, spots, label, range, telling)?;
        count = count.saturating_add(size).saturating_add(1);
    }
    Ok(count)
}

/// How large the graph of a range is: its labels and statements, at most the largest `u64`. One
/// `reach` and one `known` serve all ranges of a program.
pub fn range_size(
    alloc: Global,
    reach: &mut Reach,
    known: &mut TreeSizeCache,
    spots: &[Continuation<'_>],
    range: Range,
    telling: &LoweringContext<'_>,
) -> Result<u64, NoMemory>
    requires marked { IsMarked reach.old.places.items reach.old.marks.items }
    requires whole { IsWhole telling.now spots.now }
    requires known { IsKnown telling.now spots.now known.old }
    requires size { length reach.old.marks.items ≡ 3 * length spots.now }
    requires range { (program : Program) × IsRangeIn telling.now spots.now range program }
    ensures size { IfOk result (IsSizeIn telling.now spots.now range) }
    ensures known { IfOk result (λ size. IsKnown telling.now spots.now known.new) }
    ensures marked { IsMarked reach.new.places.items reach.new.marks.items }
    ensures marks { length reach.new.marks.items ≡ length reach.old.marks.items }
{
    let entry = telling.layout.place_of(first_of(range)) * 3;
    let size = size_from(alloc, reach, known, spots, entry, range, telling)?;
    Ok(size)
}
