//! How deep pieces nest.

ghost use Rattle.std.specs.Prelude.{◌≡◌, ◌-◌, ◌^◌, ◌&&◌, min, true};
ghost use Rattle.control_flow_theory.specs.language.Language.{By};
ghost use Rattle.control_flow_theory.specs.graph_rules.Shapes.{arms_stmts, arm_stmts, last_stmts};
ghost use Rattle.branch_tree.specs.Choosers.{seen_picker, seen_chooser};
ghost use Rattle.branch_tree.specs.Tree.{seen_piece, seen_body, seen_end, seen_tree, seen_trees, jump_within, return_within, stated};
ghost use Rattle.region_rewrite.specs.written_nesting.Nesting.{nesting, stmt_nesting, arms_nesting, arm_level, leaves_out, is_nothing};
ghost use Rattle.branch_tree.specs.Within.{end_within, arms_within};

use crate::written_nesting::own::own_nesting;
use branch_tree::{Chooser, End, Label, Leaves, Picker, Piece, Tree};
use std::collections::VecDeque;

/// Whether the arm, the first or a later one, is left out where it is empty.
fn leaves_out(by: &Picker, first: bool) -> bool
    ensures { result ≡ leaves_out (seen_picker by.now) first }
{
    match by {
        Picker::If(_) => false,
        Picker::By(chooser) => chooser_leaves_out(chooser, first),
        Picker::ByCell { .. } => false,
    }
}

fn chooser_leaves_out(chooser: &Chooser, first: bool) -> bool
    ensures { result ≡ leaves_out (By (seen_chooser chooser.now)) first }
{
    match chooser {
        Chooser::Evaluate { .. } => false,
        Chooser::Read { has_end, .. } => { if first { !*has_end } else { true } }
        Chooser::Arith { .. } => !first,
        Chooser::Depending { .. } => false,
    }
}

/// The nesting of an arm whose statements nest so deep; the arm may be left out where it is empty.
fn level(out: bool, nothing: bool, deep: u32) -> u32
    ensures { result ≡ min (arm_level out nothing deep) (2 ^ 32 - 1) }
{
    if out {
        if nothing { 0 } else { deep.saturating_add(1) }
    } else {
        deep.saturating_add(1)
    }
}

/// Whether a jump is nothing within the loop.
#[tactic(auto, using(crate::proofs::written_nesting_lemmas::NestingRows::leaf_is_nothing))]
fn jump_is_nothing(leaves: &Leaves, to: Label) -> bool
    ensures { result ≡ is_nothing (jump_within leaves.now to) }
{
    match leaves {
        Leaves::Silent => true,
        Leaves::Flag { label, .. } => to == *label,
        Leaves::Exit { label, .. } => to == *label,
        Leaves::State { .. } => false,
    }
}

/// Whether a return is nothing within the loop.
fn return_is_nothing(leaves: &Leaves) -> bool
    ensures { result ≡ is_nothing (return_within leaves.now) }
{
    match leaves {
        Leaves::Silent => true,
        Leaves::Flag { .. } => false,
        Leaves::Exit { .. } => false,
        Leaves::State { .. } => false,
    }
}

/// Whether an end is nothing within the loop.
fn end_is_nothing(leaves: &Leaves, end: &End) -> bool
    ensures { result ≡ is_nothing (end_within leaves.now (seen_end end.now)) }
{
    match end {
        End::Pick { .. } => false,
        End::Jump(to) => jump_is_nothing(leaves, *to),
        End::Return => return_is_nothing(leaves),
        End::Stop => false,
        End::Dead => true,
    }
}

fn both(one: bool, other: bool) -> bool
    ensures { result ≡ (one && other) }
{
    one && other
}

fn is_nothing(body: &VecDeque<Piece>) -> bool
    ensures { result ≡ is_nothing (seen_body body.now.items) }
{
    body.is_empty()
}

/// Whether the tree is nothing within the loop.
fn tree_is_nothing(leaves: &Leaves, tree: &Tree) -> bool
    ensures { result ≡ is_nothing (stated leaves.now (seen_tree tree.now)) }
{
    both(is_nothing(&tree.body), end_is_nothing(leaves, &tree.end))
}

/// Whether an end is nothing within a statement.
fn last_is_nothing(end: &End) -> bool
    ensures { result ≡ is_nothing (last_stmts (seen_end end.now)) }
{
    match end {
        End::Pick { .. } => true,
        End::Jump(_) => true,
        End::Return => true,
        End::Stop => false,
        End::Dead => true,
    }
}

/// Whether an arm that became statements is empty.
fn arm_is_nothing(tree: &Tree) -> bool
    ensures { result ≡ is_nothing (arm_stmts (seen_tree tree.now)) }
{
    both(is_nothing(&tree.body), last_is_nothing(&tree.end))
}

/// How deep the statements of a body nest as they are written, 0 where none holds statements; at
/// most the largest `u32`.
#[cycle(nesting)]
pub fn body_nesting(body: &VecDeque<Piece>) -> u32
    ensures { result ≡ min (nesting (seen_body body.now.items)) (2 ^ 32 - 1) }
{
    let mut deep = 0u32;
    for at in 0..body.len() {
        deep = deep.max(piece_nesting(&body[at]));
    }
    deep
}

#[cycle(nesting)]
#[tactic(auto, using(crate::proofs::written_nesting_lemmas::NestingRows::piece_own))]
fn piece_nesting(piece: &Piece) -> u32
    ensures { result ≡ min (stmt_nesting (seen_piece piece.now)) (2 ^ 32 - 1) }
{
    match piece {
        Piece::Own(stmt) => own_nesting(stmt),
        Piece::Set { .. } => 0,
        Piece::Take { .. } => 0,
        Piece::Lower { .. } => 0,
        Piece::Choose { by, arms } => chosen_nesting(by, arms.as_slice()),
        Piece::Loop { leaves, body, .. } => tree_nesting(leaves, body).saturating_add(1),
    }
}

#[cycle(nesting)]
#[tactic(auto, using(crate::proofs::written_nesting_lemmas::NestingRows::choice_is_capped))]
fn chosen_nesting(by: &Picker, arms: &[Tree]) -> u32
    ensures { result ≡ min (arms_nesting (seen_picker by.now) true
        (arms_stmts (seen_trees arms.now))) (2 ^ 32 - 1) }
{
    let mut deep = 0u32;
    let mut left = arms.len();
    while left > 0 {
        left -= 1;
        let out = leaves_out(by, left == 0);
        deep = arm_nesting(out, &arms[left]).max(deep);
    }
    deep
}

#[cycle(nesting)]
#[tactic(auto, using(crate::proofs::written_nesting_lemmas::NestingRows::arm_is_capped))]
fn arm_nesting(out: bool, tree: &Tree) -> u32
    ensures { result ≡ min (arm_level out (is_nothing (arm_stmts (seen_tree tree.now)))
        (nesting (arm_stmts (seen_tree tree.now)))) (2 ^ 32 - 1) }
{
    level(out, arm_is_nothing(tree), body_nesting(&tree.body))
}

/// How deep the statements of a tree nest within a loop.
#[cycle(nesting)]
#[tactic(auto, using(crate::proofs::written_nesting_lemmas::NestingRows::tree_is_capped))]
fn tree_nesting(leaves: &Leaves, tree: &Tree) -> u32
    ensures { result ≡ min (nesting (stated leaves.now (seen_tree tree.now))) (2 ^ 32 - 1) }
{
    body_nesting(&tree.body).max(end_nesting(leaves, &tree.end))
}

#[cycle(nesting)]
#[tactic(auto, using(crate::proofs::written_nesting_lemmas::NestingRows::leaf_nesting))]
fn end_nesting(leaves: &Leaves, end: &End) -> u32
    ensures { result ≡ min (nesting (end_within leaves.now (seen_end end.now))) (2 ^ 32 - 1) }
{
    match end {
        End::Pick { by, arms } => arms_nesting(leaves, by, arms.as_slice()),
        End::Jump(_) => 0,
        End::Return => 0,
        End::Stop => 0,
        End::Dead => 0,
    }
}

#[cycle(nesting)]
#[tactic(auto, using(crate::proofs::written_nesting_lemmas::NestingRows::arms_are_capped))]
fn arms_nesting(leaves: &Leaves, by: &Picker, arms: &[Tree]) -> u32
    ensures { result ≡ min (arms_nesting (seen_picker by.now) true
        (arms_within leaves.now (seen_picker by.now) 0 (seen_trees arms.now))) (2 ^ 32 - 1) }
{
    let mut deep = 0u32;
    let mut left = arms.len();
    while left > 0 {
        left -= 1;
        let out = leaves_out(by, left == 0);
        deep = within_nesting(leaves, out, &arms[left]).max(deep);
    }
    deep
}

#[cycle(nesting)]
#[tactic(auto, using(crate::proofs::written_nesting_lemmas::NestingRows::level_capped))]
fn within_nesting(leaves: &Leaves, out: bool, tree: &Tree) -> u32
    ensures { result ≡ min (arm_level out (is_nothing (stated leaves.now (seen_tree tree.now)))
        (nesting (stated leaves.now (seen_tree tree.now)))) (2 ^ 32 - 1) }
{
    level(
        out,
        tree_is_nothing(leaves, tree),
        tree_nesting(leaves, tree),
    )
}
