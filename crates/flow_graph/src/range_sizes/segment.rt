//! Trees that go on as others, and so are counted by them.

ghost use Rattle.std.specs.Prelude.{◌≡◌, ◌*◌, [], length, true, IfOk};
ghost use Rattle.control_flow_theory.specs.lowering.Lower.{point};
ghost use Rattle.flow_graph.specs.Reaching.{NodeJumpsBelow};
ghost use Rattle.flow_graph.specs.label_trees.Node.{IsWhole};
ghost use Rattle.flow_graph.specs.range_sizes.Exits.{GoesSo};
ghost use Rattle.flow_graph.specs.range_sizes.Cache.{IsKnown, IsPartAt};
ghost use Rattle.flow_graph.specs.range_sizes.Segment.{ComesToPart};

use crate::graph_sizes::tree_size;
use crate::label_trees::{StraightRun, straight_run};
use crate::range_sizes::cache::TreeSizeCache;
use crate::range_sizes::exits::Passing;
use crate::range_sizes::parts::TreeCount;
use cob_base::NoMemory;
use cob_tree::Range;
use statement_lowering::LoweringContext;
use statement_lowering::continuations::Continuation;
use std::alloc::Global;

/// The tree before a place, up to where it goes on as another, by its statements up to there.
#[derive(Clone, Copy)]
pub struct Segment {
    pub place: u32,
    pub size: u64,
}

/// The point before a place of a range, and how the range goes on from it.
#[derive(Clone, Copy)]
pub struct RangePoint {
    pub place: u32,
    pub passing: Passing,
    pub range: Range,
}

/// Follows the places as which the tree before a place goes on, up to one whose count is known or
/// whose tree ends by itself, and answers that count. What it passed are the stretches.
fn part_behind(
    alloc: Global,
    known: &mut TreeSizeCache,
    stretches: &mut Vec<Segment>,
    spots: &[Continuation<'_>],
    from: RangePoint,
    telling: &LoweringContext<'_>,
) -> Result<TreeCount, NoMemory>
    requires whole { IsWhole telling.now spots.now }
    requires known { IsKnown telling.now spots.now known.old }
    requires shared { known.old.shared ≡ true }
    requires goes { GoesSo spots.now from.range from.place from.passing }
    requires below { NodeJumpsBelow telling.now spots.now from.range (point from.place)
        (3 * length spots.now) }
    requires none { stretches.old.items ≡ [] }
    ensures comes { IfOk result (ComesToPart telling.now spots.now known.new.jumps.items
        from.place from.passing stretches.new.items) }
    ensures known { IfOk result (λ part. IsKnown telling.now spots.now known.new) }
{
    let mut here = from.place;
    for _turn in 0..spots.len() {
        match known.kept(here * 3, from.passing) {
            Some(part) => return Ok(part),
            None => {}
        }
        let run = straight_run(alloc, spots, here, from.range, telling)?;
        let StraightRun { tree, next } = run;
        match next {
            None => {
                let counted = known.count(alloc, &tree);
                drop(tree);
                let part = counted?;
                known.keep(here * 3, from.passing, part)?;
                return Ok(part);
            }
            Some(next) => {
                let size = tree_size(&tree);
                drop(tree);
                stretches.push(Segment { place: here, size })?;
                here = next;
            }
        }
    }
    Ok(TreeCount { size: 0, jumps: 0 })
}

/// The count of the tree at the point before a place: its own, and that of the trees as which it
/// goes on. Those are counted once for all trees that go on as them.
pub fn point_part(
    alloc: Global,
    known: &mut TreeSizeCache,
    spots: &[Continuation<'_>],
    place: u32,
    passing: Passing,
    range: Range,
    telling: &LoweringContext<'_>,
) -> Result<TreeCount, NoMemory>
    requires whole { IsWhole telling.now spots.now }
    requires known { IsKnown telling.now spots.now known.old }
    requires shared { known.old.shared ≡ true }
    requires goes { GoesSo spots.now range place passing }
    requires below { NodeJumpsBelow telling.now spots.now range (point place)
        (3 * length spots.now) }
    ensures part { IfOk result (IsPartAt telling.now spots.now known.new.jumps.items (point place)
        passing) }
    ensures known { IfOk result (λ part. IsKnown telling.now spots.now known.new) }
{
    let mut stretches = Vec::new(alloc);
    let from = RangePoint {
        place,
        passing,
        range,
    };
    let mut part = part_behind(alloc, known, &mut stretches, spots, from, telling)?;
    while let Some(stretch) = stretches.pop() {
        part.size = part.size.saturating_add(stretch.size);
        known.keep(stretch.place * 3, passing, part)?;
    }
    Ok(part)
}
