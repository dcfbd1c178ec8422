//! The rules in their order: Join always; then Loop on the lowest label where it applies, otherwise
//! Inline on the lowest, otherwise Exits on the lowest; and where none applies and several nodes
//! are left, the dispatch. `shape` gives the body that is left.
//!
//! Each rule is tried only on the labels of an ordered set, which holds all labels on which it
//! applies; so the time of a step is about proportional to what it changes. The definitions are
//! those of the theory of control, `shaped` in `control_flow_theory/specs/graph_rules/Reduced.antt`
//! and `closed_graph` in `control_flow_theory/specs/structuring/Closes.antt`; its laws say that a
//! closed graph does what the graph did, that the rules end, and that there is a dispatch only
//! where no other rule applies.
#![tactic(auto)]

mod candidates;
pub mod exit_rule;
mod exiting;
mod joining;
mod ordering;
mod reducing;
mod shaping;
pub mod written_nesting;

pub use shaping::{Shaped, shape};
