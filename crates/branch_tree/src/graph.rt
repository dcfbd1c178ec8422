//! Graphs of trees.

use crate::label::Label;
use crate::tree::Tree;

/// A tree at a label.
#[derive(Drop)]
pub struct Node {
    pub label: Label,
    pub tree: Tree,
}

/// What an added item is for.
#[derive(Clone, Copy)]
pub enum Added {
    /// It is never set, and holds 0.
    Never,
    /// The flag of a loop.
    Flag,
    /// What is left of TIMES.
    Count,
    /// The node that a dispatch goes on with.
    State,
    /// The exit by which a loop is left.
    Exit,
}

/// The graph of a range: its nodes in ascending label order, and its added items in the order in
/// which they were made.
#[derive(Drop)]
pub struct Graph {
    pub entry: Label,
    pub nodes: Vec<Node>,
    pub added: Vec<Added>,
}
