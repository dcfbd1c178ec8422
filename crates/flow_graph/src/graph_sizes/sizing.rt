//! How large graphs are.

ghost use Rattle.std.specs.Prelude.{◌≡◌, ◌-◌, ◌^◌, min, sum_by};
ghost use Rattle.control_flow_theory.specs.lowering.Completes.{sizes};
ghost use Rattle.control_flow_theory.specs.graph_rules.Shapes.{last_stmts};
ghost use Rattle.branch_tree.specs.Graph.{seen_graph, seen_node};
ghost use Rattle.branch_tree.specs.Tree.{seen_end, seen_tree, jump_within, return_within};
ghost use Rattle.branch_tree.specs.Within.{end_within};
ghost use Rattle.flow_graph.specs.graph_sizes.Parts.{arm_size, piece_size, unless, within_size};
ghost use Rattle.flow_graph.specs.graph_sizes.Sizing.{tree_size, end_size, node_size, graph_size};

use branch_tree::{End, Graph, Label, Leaves, Node, Piece, Tree};
use lowering_labels::points::stmt_size;
use std::collections::VecDeque;

/// The statements of a jump within the loop.
#[tactic(auto, using(crate::proofs::graph_sizes_lemmas::SizeRows::flag_size, crate::proofs::graph_sizes_lemmas::SizeRows::exit_size))]
fn jump_size(leaves: &Leaves, to: Label) -> u64
    ensures { result ≡ sizes (jump_within leaves.now to) }
{
    match leaves {
        Leaves::Silent => 0,
        Leaves::Flag { label, .. } => unless(to == *label),
        Leaves::Exit { label, .. } => unless(to == *label),
        Leaves::State { .. } => 1,
    }
}

/// 0 where this holds, 1 otherwise.
fn unless(nothing: bool) -> u64
    ensures { result ≡ unless nothing }
{
    if nothing { 0 } else { 1 }
}

/// The statements of a return within the loop.
fn return_size(leaves: &Leaves) -> u64
    ensures { result ≡ sizes (return_within leaves.now) }
{
    match leaves {
        Leaves::Silent => 0,
        Leaves::Flag { .. } => 1,
        Leaves::Exit { .. } => 1,
        Leaves::State { .. } => 1,
    }
}

/// The statements of an end within a statement.
fn last_size(end: &End) -> u64
    ensures { result ≡ sizes (last_stmts (seen_end end.now)) }
{
    match end {
        End::Pick { .. } => 0,
        End::Jump(_) => 0,
        End::Return => 0,
        End::Stop => 1,
        End::Dead => 0,
    }
}

/// The statements of a body; as all these counts, at most the largest `u64`.
#[cycle(sizing)]
fn body_size(body: &VecDeque<Piece>) -> u64
    ensures { result ≡ min (sum_by piece_size body.now.items) (2 ^ 64 - 1) }
{
    let mut count = 0u64;
    for at in 0..body.len() {
        count = count.saturating_add(piece_size(&body[at]));
    }
    count
}

#[cycle(sizing)]
#[tactic(auto, using(crate::proofs::graph_sizes_lemmas::SizeRows::loop_size))]
fn piece_size(piece: &Piece) -> u64
    ensures { result ≡ min (piece_size piece.now) (2 ^ 64 - 1) }
{
    match piece {
        Piece::Own(stmt) => stmt_size(stmt),
        Piece::Set { .. } => 1,
        Piece::Take { .. } => 1,
        Piece::Lower { .. } => 1,
        Piece::Choose { arms, .. } => chosen_size(arms.as_slice()).saturating_add(1),
        Piece::Loop { leaves, body, .. } => within_size(leaves, body).saturating_add(1),
    }
}

/// The statements of arms that became statements.
#[cycle(sizing)]
fn chosen_size(arms: &[Tree]) -> u64
    ensures { result ≡ min (sum_by arm_size arms.now) (2 ^ 64 - 1) }
{
    let mut count = 0u64;
    for arm in arms {
        count = count.saturating_add(arm_size(arm));
    }
    count
}

#[cycle(sizing)]
#[tactic(auto, using(crate::proofs::graph_sizes_lemmas::SizeRows::arm_size_is))]
fn arm_size(arm: &Tree) -> u64
    ensures { result ≡ min (arm_size arm.now) (2 ^ 64 - 1) }
{
    body_size(&arm.body).saturating_add(last_size(&arm.end))
}

/// The statements of a tree within a loop.
#[cycle(sizing)]
#[tactic(auto, using(crate::proofs::graph_sizes_lemmas::SizeRows::within_size_is))]
fn within_size(leaves: &Leaves, tree: &Tree) -> u64
    ensures { result ≡ min (within_size leaves.now tree.now) (2 ^ 64 - 1) }
{
    body_size(&tree.body).saturating_add(end_within_size(leaves, &tree.end))
}

#[cycle(sizing)]
fn end_within_size(leaves: &Leaves, end: &End) -> u64
    ensures { result ≡ min (sizes (end_within leaves.now (seen_end end.now))) (2 ^ 64 - 1) }
{
    match end {
        End::Pick { arms, .. } => arms_within_size(leaves, arms.as_slice()).saturating_add(1),
        End::Jump(to) => jump_size(leaves, *to),
        End::Return => return_size(leaves),
        End::Stop => 1,
        End::Dead => 0,
    }
}

#[cycle(sizing)]
fn arms_within_size(leaves: &Leaves, arms: &[Tree]) -> u64
    ensures { result ≡ min (sum_by (within_size leaves.now) arms.now) (2 ^ 64 - 1) }
{
    let mut count = 0u64;
    for arm in arms {
        count = count.saturating_add(within_size(leaves, arm));
    }
    count
}

/// The statements of a tree of a graph, with those of the arms at its end.
#[cycle(tree)]
#[tactic(auto, using(crate::proofs::graph_sizes_lemmas::SizeRows::tree_size_is))]
pub fn tree_size(tree: &Tree) -> u64
    ensures { result ≡ min (tree_size (seen_tree tree.now)) (2 ^ 64 - 1) }
{
    body_size(&tree.body).saturating_add(end_size(&tree.end))
}

#[cycle(tree)]
#[tactic(auto, using(crate::proofs::graph_sizes_lemmas::SizeRows::trees_size_is))]
fn end_size(end: &End) -> u64
    ensures { result ≡ min (end_size (seen_end end.now)) (2 ^ 64 - 1) }
{
    match end {
        End::Pick { arms, .. } => trees_size(arms.as_slice()),
        End::Jump(_) => 0,
        End::Return => 0,
        End::Stop => 0,
        End::Dead => 0,
    }
}

#[cycle(tree)]
fn trees_size(arms: &[Tree]) -> u64
    ensures { result ≡ min (sum_by (λ arm. tree_size (seen_tree arm)) arms.now) (2 ^ 64 - 1) }
{
    let mut count = 0u64;
    for arm in arms {
        count = count.saturating_add(tree_size(arm));
    }
    count
}

fn node_size(node: &Node) -> u64
    ensures { result ≡ min (node_size (seen_node node.now)) (2 ^ 64 - 1) }
{
    tree_size(&node.tree).saturating_add(1)
}

/// How large the graph is: its labels and statements, at most the largest `u64`.
#[tactic(auto, using(crate::proofs::graph_sizes_lemmas::SizeRows::nodes_size_is))]
pub fn graph_size(graph: &Graph) -> u64
    ensures { result ≡ min (graph_size (seen_graph graph.now)) (2 ^ 64 - 1) }
{
    let mut count = 0u64;
    for node in graph.nodes.as_slice() {
        count = count.saturating_add(node_size(node));
    }
    count
}
