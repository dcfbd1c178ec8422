//! Nodes as a graph keeps them while it is rewritten.

use branch_tree::Node;

/// A node, with the number of leaves that jump to it, and the sum of the keys of their nodes, one
/// for each leaf: where there is one leaf, it is the key of its node.
#[derive(Drop)]
pub struct Kept {
    pub node: Node,
    pub incoming: u32,
    pub sources: usize,
}
