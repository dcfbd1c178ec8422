//! How large graphs are: their labels, and the statements in their trees.
//!
//! Statements are counted as they are written in the theory of control, including those that a
//! statement holds; a choice at the end of a tree isn't one (`specs/graph_sizes/Sizing.antt`).

mod sizing;

pub use crate::graph_sizes::sizing::{graph_size, tree_size};
