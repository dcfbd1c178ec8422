//! Loop: a node with a jump to itself, whose other live leaves have at most one target, becomes a
//! loop, and then that target.
//!
//! The first of these forms that fits is taken: endless, where there is no target; tested before;
//! tested after; and otherwise with a flag, which is cleared where the loop begins. The definition
//! is that of the theory of control, `close_graph` in
//! `control_flow_theory/specs/graph_rules/Reduced.antt`.
#![tactic(auto)]

mod forms;
mod nodes;

pub use forms::{LoopForm, Turning, form_of, looped};
pub use nodes::{close_loop, close_tree, may_loop};
