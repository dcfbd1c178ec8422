//! Which labels a tree jumps to.

ghost use Rattle.std.specs.Prelude.{◌≡◌, ◌-◌, ◌^◌, min};
ghost use Rattle.control_flow_theory.specs.semantics.Doing.{is_above};
ghost use Rattle.control_flow_theory.specs.graph_rules.Shapes.{leaves_to, arms_leaves_to};
ghost use Rattle.control_flow_theory.specs.graph_rules.Reduced.{all_leaves_to};
ghost use Rattle.branch_tree.specs.Tree.{seen_tree, seen_trees};
ghost use Rattle.branch_tree.specs.Graph.{seen_nodes};

use crate::graph::Graph;
use crate::label::Label;
use crate::tree::{End, Tree};

impl Tree {
    /// Whether a leaf of the tree jumps to the label.
    pub fn jumps_to(&self, label: Label) -> bool
        ensures { result ≡ is_above (leaves_to label (seen_tree self.now)) }
    {
        tree_jumps(self, label)
    }
}

#[cycle(jumps)]
fn tree_jumps(tree: &Tree, label: Label) -> bool
    ensures { result ≡ is_above (leaves_to label (seen_tree tree.now)) }
{
    match &tree.end {
        End::Pick { arms, .. } => one_jumps(arms.as_slice(), label),
        End::Jump(to) => *to == label,
        End::Return => false,
        End::Stop => false,
        End::Dead => false,
    }
}

#[cycle(jumps)]
fn one_jumps(arms: &[Tree], label: Label) -> bool
    ensures { result ≡ is_above (arms_leaves_to label (seen_trees arms.now)) }
{
    for arm in arms {
        if tree_jumps(arm, label) {
            return true;
        }
    }
    false
}

impl Tree {
    /// How many leaves of the tree jump to the label, at most the largest `u32`.
    pub fn leaves_to(&self, label: Label) -> u32
        ensures { result ≡ min (leaves_to label (seen_tree self.now)) (2 ^ 32 - 1) }
    {
        tree_leaves(self, label)
    }
}

#[cycle(leaves)]
fn tree_leaves(tree: &Tree, label: Label) -> u32
    ensures { result ≡ min (leaves_to label (seen_tree tree.now)) (2 ^ 32 - 1) }
{
    match &tree.end {
        End::Pick { arms, .. } => arms_leaves(arms.as_slice(), label),
        End::Jump(to) => { if *to == label { 1 } else { 0 } }
        End::Return => 0,
        End::Stop => 0,
        End::Dead => 0,
    }
}

#[cycle(leaves)]
fn arms_leaves(arms: &[Tree], label: Label) -> u32
    ensures { result ≡ min (arms_leaves_to label (seen_trees arms.now)) (2 ^ 32 - 1) }
{
    let mut count = 0u32;
    for arm in arms {
        count = count.saturating_add(tree_leaves(arm, label));
    }
    count
}

impl Graph {
    /// How many leaves of the graph jump to the label, at most the largest `u32`.
    pub fn leaves_to(&self, label: Label) -> u32
        ensures { result ≡ min (all_leaves_to label (seen_nodes self.now.nodes.items))
            (2 ^ 32 - 1) }
    {
        let mut count = 0u32;
        for node in &self.nodes {
            count = count.saturating_add(node.tree.leaves_to(label));
        }
        count
    }
}
