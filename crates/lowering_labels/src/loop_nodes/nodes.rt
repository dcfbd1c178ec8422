//! The trees at the labels of a loop.

ghost use Rattle.std.specs.Prelude.{◌≡◌, IfOk, OnOk};
ghost use Rattle.control_flow_theory.specs.language.Control.{control_in, augmented};
ghost use Rattle.control_flow_theory.specs.semantics.Graph.{tree};
ghost use Rattle.branch_tree.specs.Tree.{seen_tree, seen_body, seen_end};
ghost use Rattle.lowering_labels.specs.loop_nodes.Nodes.{IsTree, Adds, left_or, third_of, head_of};
ghost use Rattle.lowering_labels.specs.loop_nodes.Loops.{stepped, turn_start};

use crate::loop_nodes::ends::{end_alone, end_at};
use crate::loop_nodes::loops::{augmenting, by_test, loop_head_label};
use crate::points::JumpTarget;
use branch_tree::{End, Piece, Test, Tree};
use cob_base::{Copied, NoMemory};
use cob_tree::{Cond, Control, Operand, Place};
use std::alloc::Global;
use std::collections::VecDeque;

/// The choice between what follows where the condition holds, and this tree.
pub fn leave_or(
    alloc: Global,
    cond: &Cond,
    after: JumpTarget,
    other: Tree,
) -> Result<Tree, NoMemory>
    ensures { IfOk result (IsTree (left_or cond.now after (seen_tree other))) }
{
    match cond.copy(alloc) {
        Ok(cond) => {
            let leaves = end_alone(alloc, end_at(after));
            by_test(alloc, Test::Holds(cond), leaves, other)
        }
        Err(fault) => {
            drop(other);
            Err(fault)
        }
    }
}

/// Pieces, and then an end.
pub fn body_with_end(body: Vec<Piece>, end: End) -> Tree
    ensures { seen_tree result ≡ tree (seen_body body.items) (seen_end end) }
{
    Tree {
        body: VecDeque::from_vec(body),
        end,
    }
}

/// The step of VARYING, and then the head.
fn step_tree(alloc: Global, item: &Place, by: &Operand, place: u32) -> Result<Tree, NoMemory>
    ensures { IfOk result (λ made. seen_tree made ≡ stepped (augmented item.now by.now) place) }
{
    let mut body = Vec::new(alloc);
    body.push(augmenting(alloc, item, by)?)?;
    let end = End::Jump(loop_head_label(place));
    Ok(body_with_end(body, end))
}

/// The tree at the test after the body, or at the step.
pub fn third_node(
    alloc: Global,
    control: &Control,
    place: u32,
    after: JumpTarget,
) -> Result<Tree, NoMemory>
    ensures { IfOk result (IsTree (third_of control.now place after)) }
{
    match control {
        Control::Once => Ok(end_alone(alloc, End::Dead)),
        Control::Times(_) => Ok(end_alone(alloc, End::Dead)),
        Control::Until {
            after: is_after,
            cond,
        } => {
            if !*is_after {
                return Ok(end_alone(alloc, End::Dead));
            }
            let turns = end_alone(alloc, End::Jump(loop_head_label(place)));
            leave_or(alloc, cond, after, turns)
        }
        Control::Varying {
            after: is_after,
            item,
            by,
            cond,
            ..
        } => {
            let step = step_tree(alloc, item.get(), by.get(), place)?;
            if !*is_after {
                return Ok(step);
            }
            leave_or(alloc, cond, after, step)
        }
    }
}

/// What begins each turn.
pub fn start_turn(body: &mut Vec<Piece>, control: &Control, place: u32) -> Result<(), NoMemory>
    ensures { OnOk result (Adds (turn_start (control_in control.now) place) body.old.items
        body.new.items) }
{
    match control {
        Control::Once => Ok(()),
        Control::Times(_) => {
            body.push(Piece::Lower { cell: place })?;
            Ok(())
        }
        Control::Until { .. } => Ok(()),
        Control::Varying { .. } => Ok(()),
    }
}

/// The tree at the head, by that of a whole turn.
pub fn head_node(
    alloc: Global,
    control: &Control,
    place: u32,
    turn: Tree,
    after: JumpTarget,
) -> Result<Tree, NoMemory>
    ensures { IfOk result (IsTree (head_of control.now place (seen_tree turn) after)) }
{
    match control {
        Control::Once => {
            drop(turn);
            Ok(end_alone(alloc, End::Dead))
        }
        Control::Times(_) => {
            let leaves = end_alone(alloc, end_at(after));
            by_test(alloc, Test::Above { cell: place }, turn, leaves)
        }
        Control::Until {
            after: is_after,
            cond,
        } => {
            if *is_after {
                return Ok(turn);
            }
            leave_or(alloc, cond, after, turn)
        }
        Control::Varying {
            after: is_after,
            cond,
            ..
        } => {
            if *is_after {
                return Ok(turn);
            }
            leave_or(alloc, cond, after, turn)
        }
    }
}
