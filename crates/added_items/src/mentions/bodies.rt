//! The cells that bodies and trees name, by their pieces.

ghost use Rattle.std.specs.Prelude.{◌≡◌, ◌++◌, [], OnOk};
ghost use Rattle.cob_base.specs.Answers.{Makes};
ghost use Rattle.control_flow_theory.specs.graph_rules.Shapes.{arms_stmts, arm_stmts};
ghost use Rattle.control_flow_theory.specs.language.Control.{seen};
ghost use Rattle.branch_tree.specs.Tree.{seen_piece, seen_body, seen_end, seen_tree, seen_trees, stated};
ghost use Rattle.added_items.specs.mentions.CellUse.{cell_uses, stmt_mentions, arms_mentions};
ghost use Rattle.added_items.specs.mentions.Within.{end_within, trees_within};

use crate::mentions::cell_use::{CellUse, add_jump, add_picker, add_return, add_test, named};
use branch_tree::{End, Leaves, Piece, Tree};
use cob_base::{Items, NoMemory};
use cob_tree::Stmt;
use program_facts::own_items::is_own_stmt;
use std::alloc::Global;
use std::collections::VecDeque;

/// Tests that a statement of the program names no cell.
#[tactic(auto, using(crate::proofs::mentions_lemmas::MentionRows::own_none))]
fn own_names_none(stmt: &Stmt) -> Result<(), NoMemory>
    ensures { OnOk result (stmt_mentions (seen 0 stmt.now) ≡ []) }
{
    if is_own_stmt(stmt) {
        Ok(())
    } else {
        Err(NoMemory)
    }
}

#[cycle(add)]
#[tactic(auto, using(crate::proofs::mentions_lemmas::MentionRows::own_added))]
fn add_piece(made: &mut Items<CellUse>, piece: &Piece) -> Result<(), NoMemory>
    ensures { OnOk result (made.new ≡ made.old ++ stmt_mentions (seen_piece piece.now)) }
{
    match piece {
        Piece::Own(stmt) => own_names_none(stmt),
        Piece::Set { cell, .. } => made.push(named(*cell)),
        Piece::Take { cell, .. } => made.push(named(*cell)),
        Piece::Lower { cell } => made.push(named(*cell)),
        Piece::Choose { by, arms } => {
            add_picker(made, by, arms.len())?;
            add_arms(made, arms.as_slice())
        }
        Piece::Loop {
            turned: _,
            after: _,
            test,
            leaves,
            body,
        } => {
            add_test(made, test)?;
            add_tree(made, leaves, body)
        }
    }
}

/// Adds what the pieces of a body name.
#[cycle(add)]
fn add_body(made: &mut Items<CellUse>, body: &VecDeque<Piece>) -> Result<(), NoMemory>
    ensures { OnOk result (made.new ≡ made.old ++ cell_uses (seen_body body.now.items)) }
{
    for at in 0..body.len() {
        add_piece(made, &body[at])?;
    }
    Ok(())
}

/// Adds what the arms of a choice that is a statement name.
#[cycle(add)]
fn add_arms(made: &mut Items<CellUse>, arms: &[Tree]) -> Result<(), NoMemory>
    ensures { OnOk result
        (made.new ≡ made.old ++ arms_mentions (arms_stmts (seen_trees arms.now))) }
{
    for arm in arms {
        add_arm(made, arm)?;
    }
    Ok(())
}

#[cycle(add)]
#[tactic(auto, using(crate::proofs::mentions_lemmas::MentionRows::arm_names))]
fn add_arm(made: &mut Items<CellUse>, arm: &Tree) -> Result<(), NoMemory>
    ensures { OnOk result (made.new ≡ made.old ++ cell_uses (arm_stmts (seen_tree arm.now))) }
{
    add_body(made, &arm.body)
}

/// Adds what a tree within a loop names.
#[cycle(add)]
#[tactic(auto, using(crate::proofs::mentions_lemmas::MentionRows::tree_names))]
fn add_tree(made: &mut Items<CellUse>, leaves: &Leaves, tree: &Tree) -> Result<(), NoMemory>
    ensures { OnOk result
        (made.new ≡ made.old ++ cell_uses (stated leaves.now (seen_tree tree.now))) }
{
    add_body(made, &tree.body)?;
    add_end(made, leaves, &tree.end)
}

#[cycle(add)]
#[tactic(auto, using(crate::proofs::mentions_lemmas::MentionRows::pick_names))]
fn add_end(made: &mut Items<CellUse>, leaves: &Leaves, end: &End) -> Result<(), NoMemory>
    ensures { OnOk result
        (made.new ≡ made.old ++ cell_uses (end_within leaves.now (seen_end end.now))) }
{
    match end {
        End::Pick { by, arms } => {
            add_picker(made, by, arms.len())?;
            add_within(made, leaves, arms.as_slice())
        }
        End::Jump(to) => add_jump(made, leaves, *to),
        End::Return => add_return(made, leaves),
        End::Stop => Ok(()),
        End::Dead => Ok(()),
    }
}

/// Adds what the arms of a choice within a loop name.
#[cycle(add)]
fn add_within(made: &mut Items<CellUse>, leaves: &Leaves, arms: &[Tree]) -> Result<(), NoMemory>
    ensures { OnOk result (made.new ≡ made.old ++ trees_within leaves.now (seen_trees arms.now)) }
{
    for arm in arms {
        add_tree(made, leaves, arm)?;
    }
    Ok(())
}

/// Where the body names cells, in the order of its text. Err where memory runs out, and where a
/// statement of the program has a word on an added item.
pub fn cell_uses(alloc: Global, body: &VecDeque<Piece>) -> Result<Items<CellUse>, NoMemory>
    ensures { Makes (cell_uses (seen_body body.now.items)) result }
{
    let mut made = Items::new(alloc);
    match add_body(&mut made, body) {
        Ok(()) => Ok(made),
        Err(fault) => Err(fault),
    }
}
