//! The trees at the labels of a loop with an escape.

ghost use Rattle.std.specs.Prelude.{◌≡◌, ◌+◌, ◌<◌, ◌^◌, true, sum_by, IfOk, IsTrue};
ghost use Rattle.cob_tree.specs.Places.{stmt_places};
ghost use Rattle.control_flow_theory.specs.language.Control.{control_in};
ghost use Rattle.control_flow_theory.specs.language.OwnItems.{stmts_own};
ghost use Rattle.branch_tree.specs.Tree.{seen_end};
ghost use Rattle.lowering_labels.specs.points.JumpTarget.{seen_target};
ghost use Rattle.statement_lowering.specs.LoopParts.{end_or, turn_end, IsLoopTree, IsTurn};

use crate::context::{EscapeTargets, RestContext};
use crate::lower_list::lower_rest_to;
use branch_tree::{End, Tree, drop_pieces};
use cob_base::NoMemory;
use cob_tree::{Control, Stmt};
use lowering_labels::loop_nodes::{end_at, head_node, loop_back_label, start_turn, third_node};
use lowering_labels::points::JumpTarget;
use std::alloc::Global;

/// The continuations within a loop.
pub fn within_loop(leaving: &EscapeTargets, after: &JumpTarget, turn: &JumpTarget) -> EscapeTargets
    ensures { result ≡ record leaving.now { behind_loop = after.now; cycle = turn.now } }
{
    EscapeTargets {
        sentence: leaving.sentence,
        paragraph: leaving.paragraph,
        section: leaving.section,
        behind_loop: *after,
        cycle: *turn,
    }
}

/// The end of a turn, where a loop's body comes back.
pub fn turn_leaf(control: &Control, place: u32) -> JumpTarget
    ensures { seen_target result ≡ turn_end (control_in control.now) place }
{
    JumpTarget::Jump(loop_back_label(control, place))
}

/// How a tree ends whose statements came to this end, or else to their continuation.
pub fn end_or(end: Option<End>, after: &JumpTarget) -> End
    ensures { seen_end result ≡ end_or end after.now }
{
    match end {
        None => end_at(*after),
        Some(end) => end,
    }
}

/// The tree of a whole turn.
fn turn_tree(
    alloc: Global,
    control: &Control,
    turns: &[Stmt],
    place: u32,
    context: RestContext<'_>,
) -> Result<Tree, NoMemory>
    requires own { IsTrue (stmts_own turns.now) }
    requires fits { place + 1 + sum_by stmt_places turns.now < 2 ^ 32 }
    ensures { IfOk result (IsTurn context.entry.telling.now context.entry.leaving.now control.now
        turns.now place context.entry.after.now) }
{
    let turn = turn_leaf(control, place);
    let inner = within_loop(context.leaving, context.after, &turn);
    let mut body = Vec::new(alloc);
    match start_turn(&mut body, control, place) {
        Ok(()) => {}
        Err(fault) => {
            drop_pieces(body);
            return Err(fault);
        }
    }
    let tree = lower_rest_to(
        alloc,
        body,
        turns,
        place + 1,
        RestContext {
            telling: context.telling,
            leaving: &inner,
            after: &turn,
        },
    )?;
    Ok(tree)
}

/// The tree at the head of a loop.
fn head_tree(
    alloc: Global,
    control: &Control,
    turns: &[Stmt],
    place: u32,
    context: RestContext<'_>,
) -> Result<Tree, NoMemory>
    requires own { IsTrue (stmts_own turns.now) }
    requires fits { place + 1 + sum_by stmt_places turns.now < 2 ^ 32 }
    ensures { IfOk result (IsLoopTree context.entry.telling.now context.entry.leaving.now true
        control.now turns.now place context.entry.after.now) }
{
    let turn = turn_tree(alloc, control, turns, place, context)?;
    let tree = head_node(alloc, control, place, turn, *context.after)?;
    Ok(tree)
}

/// The tree at a loop's head, or at its test or step, which not every loop has.
pub fn loop_tree(
    alloc: Global,
    control: &Control,
    turns: &[Stmt],
    place: u32,
    is_head: bool,
    context: RestContext<'_>,
) -> Result<Tree, NoMemory>
    requires own { IsTrue (stmts_own turns.now) }
    requires fits { place + 1 + sum_by stmt_places turns.now < 2 ^ 32 }
    ensures { IfOk result (IsLoopTree context.entry.telling.now context.entry.leaving.now is_head
        control.now turns.now place context.entry.after.now) }
{
    if is_head {
        let tree = head_tree(alloc, control, turns, place, context)?;
        return Ok(tree);
    }
    let tree = third_node(alloc, control, place, *context.after)?;
    Ok(tree)
}
