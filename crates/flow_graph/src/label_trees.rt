//! The trees of a range's nodes, by the table of rests.
//!
//! `label_tree` gives the tree at any label in any range: it follows the rests from there on. It is
//! to be compared with `nodes_of` of `control_flow_theory/specs/lowering/Lowered`, which has the
//! same trees. `straight_run` gives the tree before a place only up to where it goes on as the tree
//! at another place (`specs/label_trees/Run`).

mod node;
mod run;

pub use crate::label_trees::node::label_tree;
pub use crate::label_trees::run::{StraightRun, straight_run};
