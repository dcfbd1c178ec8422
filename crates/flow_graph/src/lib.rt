//! The lowered graph of a range: the trees of its reached nodes, in the order of their labels.
//!
//! `lower_within` searches for the labels that are reached from the range's entry, as
//! `pending_returns::levels::reached` searches for places, and makes the tree at each once, by
//! `label_trees::label_tree`. It gives up where there are more labels and statements than its
//! limit. It is to be compared with `IsLowered` of `specs/Lowered`, and `IsLoweredWithin` of
//! `specs/Counts`.
#![tactic(auto)]

mod adding;
pub mod graph_sizes;
pub mod label_trees;
mod nodes;
pub mod range_sizes;
mod reaching;

pub use nodes::{first_of, lower_within};
pub use reaching::visit_tree;
