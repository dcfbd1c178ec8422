//! The part of a tree that comes from its own list of statements.

ghost use Rattle.std.specs.Prelude.{◌<◌, length, IfOk};
ghost use Rattle.flow_graph.specs.label_trees.Node.{IsWhole};
ghost use Rattle.flow_graph.specs.label_trees.Run.{GoesBehind, IsStraightRunAlike};

use crate::label_trees::node::{after_of, leaving_of};
use branch_tree::{End, Tree};
use cob_base::NoMemory;
use cob_tree::Range;
use lowering_labels::loop_nodes::{body_with_end, end_at};
use statement_lowering::continuations::Continuation;
use statement_lowering::{LoweringContext, RestContext, lower_rest};
use std::alloc::Global;

/// A tree up to where it goes on as the tree at another place, and that place; or the whole tree,
/// and no place.
#[derive(Drop)]
pub struct StraightRun {
    pub tree: Tree,
    pub next: Option<u32>,
}

/// The own run of the tree at the point before a place: it takes the statements of this place's
/// list alone, however long the tree is.
pub fn straight_run(
    alloc: Global,
    spots: &[Continuation<'_>],
    place: u32,
    range: Range,
    telling: &LoweringContext<'_>,
) -> Result<StraightRun, NoMemory>
    requires whole { IsWhole telling.now spots.now }
    requires there { place < length spots.now }
    ensures next { IfOk result (λ run. GoesBehind spots.now place run.next) }
    ensures run { IfOk result (IsStraightRunAlike telling.now spots.now range place) }
{
    let spot = &spots[place as usize];
    let leaving = leaving_of(&spot.onward, range, telling);
    let after = after_of(&spot.onward, range, telling);
    let mut body = Vec::new(alloc);
    let context = RestContext {
        telling,
        leaving: &leaving,
        after: &after,
    };
    match lower_rest(alloc, &mut body, spot.stmts, place, context)? {
        Some(end) => Ok(StraightRun {
            tree: body_with_end(body, end),
            next: None,
        }),
        None => match spot.onward.behind {
            None => Ok(StraightRun {
                tree: body_with_end(body, end_at(after)),
                next: None,
            }),
            Some(next) => Ok(StraightRun {
                tree: body_with_end(body, End::Dead),
                next: Some(next),
            }),
        },
    }
}
