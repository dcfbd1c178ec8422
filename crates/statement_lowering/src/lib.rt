//! The trees of rests: lowers statements from a place on.
//!
//! `lower_rest` takes the statements of a list in order and adds to a body; it answers how the tree
//! ends, or none where it comes to the list's end, after which the caller goes on. It is to be
//! compared with `build` of `control_flow_theory/specs/lowering/Lower`, and `turn_tree` and
//! `loop_tree` with `loop_nodes`.
#![tactic(auto)]

mod choices;
mod context;
pub mod continuations;
mod escape_free;
mod loop_parts;
mod lower_list;

pub use context::{EscapeTargets, LoweringContext, RestContext, rest_at};
pub use loop_parts::{loop_tree, turn_leaf, within_loop};
pub use lower_list::lower_rest;
