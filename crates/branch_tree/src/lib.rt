//! Graphs of trees, as code: the points of a program, the trees at them, and what these choose by.
//! A body holds statements without a jump; each tree ends in a choice, a jump, a return, a stop, or
//! dead.
//!
//! Contracts see a tree as the tree of the theory of control (`specs/Tree.antt`). The crate
//! `graph_rewriting` holds a graph while the rules rewrite it.
#![tactic(auto)]

mod changes;
mod chooser;
mod graph;
mod jumps;
mod label;
mod tree;

pub use changes::{drop_body, drop_nodes, drop_pieces, drop_tree, drop_trees};
pub use chooser::{Chooser, Picker, Test};
pub use graph::{Added, Graph, Node};
pub use label::Label;
pub use tree::{End, Leaves, Piece, Tree};
