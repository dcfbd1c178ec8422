//! The graph of a range.

ghost use Rattle.std.specs.Prelude.{◌≡◌, ◌*◌, ◌<◌, ◌-◌, ◌^◌, length, IfOk};
ghost use Rattle.cob_tree.specs.declared.program.Program.{Program};
ghost use Rattle.control_flow_theory.specs.lowering.flow.Comes.{entry_of};
ghost use Rattle.lowering_labels.specs.points.FallThrough.{seen_range};
ghost use Rattle.pending_returns.specs.levels.Reach.{IsMarked};
ghost use Rattle.flow_graph.specs.label_trees.Node.{IsWhole};
ghost use Rattle.flow_graph.specs.Counts.{IsLoweredWithin};
ghost use Rattle.flow_graph.specs.Reaching.{IsRangeIn};

use crate::reaching::{RangeEntry, reach_from};
use branch_tree::{Graph, Node};
use cob_base::NoMemory;
use cob_tree::Range;
use lowering_labels::points::point;
use pending_returns::levels::Reach;
use statement_lowering::LoweringContext;
use statement_lowering::continuations::Continuation;
use std::alloc::Global;

/// The paragraph that a range begins with.
pub fn first_of(range: Range) -> u32
    ensures { result ≡ entry_of (seen_range range) }
{
    match range.exit {
        None => 0,
        Some(_) => range.entry,
    }
}

/// The graph of a range: the nodes that are reached from its entry, in the order of their labels.
/// None where it has more than `most` labels and statements: as soon as it has, what was made is
/// dropped. One `reach` serves all ranges of a program, since only what was reached is cleared.
pub fn lower_within(
    alloc: Global,
    reach: &mut Reach,
    spots: &[Continuation<'_>],
    range: Range,
    telling: &LoweringContext<'_>,
    most: u64,
) -> Result<Option<Graph>, NoMemory>
    requires marked { IsMarked reach.old.places.items reach.old.marks.items }
    requires whole { IsWhole telling.now spots.now }
    requires size { length reach.old.marks.items ≡ 3 * length spots.now }
    requires range { (program : Program) × IsRangeIn telling.now spots.now range program }
    requires small { most < 2 ^ 64 - 1 }
    ensures graph { IfOk result (IsLoweredWithin telling.now spots.now range most) }
    ensures marked { IsMarked reach.new.places.items reach.new.marks.items }
    ensures size { length reach.new.marks.items ≡ length reach.old.marks.items }
{
    let place = telling.layout.place_of(first_of(range));
    let mut nodes = Vec::new(alloc);
    let begin = RangeEntry {
        range,
        entry: place * 3,
    };
    match reach_from(alloc, reach, &mut nodes, spots, begin, telling, most) {
        Ok(true) => {}
        Ok(false) => {
            drop(nodes);
            return Ok(None);
        }
        Err(fault) => {
            drop(nodes);
            return Err(fault);
        }
    }
    nodes.sort_unstable_by_key(|node: &Node| node.label.number());
    Ok(Some(Graph {
        entry: point(place),
        nodes,
        added: Vec::new(alloc),
    }))
}
