//! The tree at a label.

ghost use Rattle.std.specs.Prelude.{◌≡◌, ◌*◌, ◌/◌, ◌<◌, ◌^◌, length, IfOk, MatchOption};
ghost use Rattle.cob_tree.specs.declared.stmt.Stmt.TheVariants.{Loop};
ghost use Rattle.control_flow_theory.specs.lowering.Lower.{point};
ghost use Rattle.statement_lowering.specs.continuations.Statements.{Fits};
ghost use Rattle.flow_graph.specs.label_trees.Node.{GoesOnIn, HoldsNoLoop, IsNodeAlike, IsNodeIn, IsTurnAlike, IsWhole, LeavesIn};

use branch_tree::{End, Tree};
use cob_base::NoMemory;
use cob_tree::{Control, Range, Stmt};
use lowering_labels::loop_nodes::{body_with_end, end_alone, end_at};
use lowering_labels::points::{JumpTarget, jump_target_of, paragraph_end_target, stmt_size};
use statement_lowering::continuations::{Continuation, Successors, ended_by};
use statement_lowering::{
    EscapeTargets, LoweringContext, RestContext, loop_tree, lower_rest, rest_at,
};
use std::alloc::Global;

/// Where control that leaves a rest goes on, in a range.
pub fn leaving_of(onward: &Successors, range: Range, telling: &LoweringContext<'_>) -> EscapeTargets
    ensures { LeavesIn telling.now range onward.now result }
{
    let end = paragraph_end_target(telling.layout, range, onward.paragraph);
    EscapeTargets {
        sentence: ended_by(&onward.sentence, &end),
        paragraph: end,
        section: paragraph_end_target(telling.layout, range, onward.last),
        behind_loop: ended_by(&onward.behind_loop, &end),
        cycle: ended_by(&onward.cycle, &end),
    }
}

/// The continuation after a rest's list, in a range.
pub fn after_of(onward: &Successors, range: Range, telling: &LoweringContext<'_>) -> JumpTarget
    ensures { GoesOnIn telling.now range onward.now result }
{
    let end = paragraph_end_target(telling.layout, range, onward.paragraph);
    ended_by(&onward.after, &end)
}

/// The tree at the point before a place. It goes on at later places only, up to the last one.
fn point_tree(
    alloc: Global,
    spots: &[Continuation<'_>],
    place: u32,
    range: Range,
    telling: &LoweringContext<'_>,
) -> Result<Tree, NoMemory>
    requires whole { IsWhole telling.now spots.now }
    requires there { place < length spots.now }
    ensures { IfOk result (IsNodeAlike telling.now spots.now range place (point place)) }
{
    let mut body = Vec::new(alloc);
    let mut here = place;
    for _turn in 0..spots.len() {
        let spot = &spots[here as usize];
        let leaving = leaving_of(&spot.onward, range, telling);
        let after = after_of(&spot.onward, range, telling);
        let context = RestContext {
            telling: &*telling,
            leaving: &leaving,
            after: &after,
        };
        match lower_rest(alloc, &mut body, spot.stmts, here, context)? {
            Some(end) => return Ok(body_with_end(body, end)),
            None => match spot.onward.behind {
                None => return Ok(body_with_end(body, end_at(after))),
                Some(next) => here = next,
            },
        }
    }
    Ok(body_with_end(body, End::Dead))
}

/// The control and the body of a loop.
fn loop_parts(stmt: &Stmt) -> Option<(&Control, &[Stmt])>
    ensures { MatchOption result (HoldsNoLoop stmt.now)
        (λ parts. stmt.now ≡ Loop parts.0.now parts.1.now) }
{
    match stmt {
        Stmt::Loop { control, body } => Some((control, body.as_slice())),
        Stmt::Arith { .. } => None,
        Stmt::Perform { .. } => None,
        Stmt::Move { .. } => None,
        Stmt::If { .. } => None,
        Stmt::Evaluate { .. } => None,
        Stmt::Read { .. } => None,
        Stmt::Display { .. } => None,
        Stmt::SetTrue(_) => None,
        Stmt::Opens(_) => None,
        Stmt::Closes(_) => None,
        Stmt::Write { .. } => None,
        Stmt::Rewrite { .. } => None,
        Stmt::Go(_) => None,
        Stmt::GoDepending { .. } => None,
        Stmt::NextSentence => None,
        Stmt::ExitParagraph => None,
        Stmt::ExitSection => None,
        Stmt::ExitPerform { .. } => None,
        Stmt::StopRun => None,
        Stmt::Exit => None,
        Stmt::Continue => None,
    }
}

/// The tree at a loop's head, or at its test or step.
fn turn_tree(
    alloc: Global,
    spot: &Continuation<'_>,
    place: u32,
    is_head: bool,
    range: Range,
    telling: &LoweringContext<'_>,
) -> Result<Tree, NoMemory>
    requires fits { Fits telling.now.layout.now.end place spot.now }
    requires small { telling.now.layout.now.end < 2 ^ 30 }
    ensures { IfOk result (IsTurnAlike telling.now spot.now range place is_head) }
{
    match spot.stmts {
        [] => Ok(end_alone(alloc, End::Dead)),
        [stmt, ..] => match loop_parts(stmt) {
            None => Ok(end_alone(alloc, End::Dead)),
            Some((control, turns)) => {
                let leaving = leaving_of(&spot.onward, range, telling);
                let next = place + stmt_size(stmt) as u32;
                let behind = after_of(&spot.onward, range, telling);
                let after = jump_target_of(rest_at(spot.stmts, 1), next, telling.layout, behind);
                let context = RestContext {
                    telling,
                    leaving: &leaving,
                    after: &after,
                };
                let tree = loop_tree(alloc, control, turns, place, is_head, context)?;
                Ok(tree)
            }
        },
    }
}

/// The tree at a label. It is the same in all ranges that go on alike from there.
pub fn label_tree(
    alloc: Global,
    spots: &[Continuation<'_>],
    label: u32,
    range: Range,
    telling: &LoweringContext<'_>,
) -> Result<Tree, NoMemory>
    requires whole { IsWhole telling.now spots.now }
    requires there { label < 3 * length spots.now }
    ensures own { IfOk result (IsNodeIn telling.now spots.now range label) }
    ensures alike { IfOk result (IsNodeAlike telling.now spots.now range (label / 3) label) }
{
    let place = label / 3;
    let part = label % 3;
    if part == 0 {
        let tree = point_tree(alloc, spots, place, range, telling)?;
        return Ok(tree);
    }
    let spot = &spots[place as usize];
    if part == 1 {
        let tree = turn_tree(alloc, spot, place, true, range, telling)?;
        return Ok(tree);
    }
    let tree = turn_tree(alloc, spot, place, false, range, telling)?;
    Ok(tree)
}
