//! The trees of a lowered graph.
//!
//! They are to be compared with `build` and `loop_nodes` of
//! `control_flow_theory/specs/lowering/Lower`, a function for each row.

mod ends;
pub mod laws;
mod loops;
mod nodes;

pub use crate::loop_nodes::ends::{depending, end_alone, end_at, push_only};
pub use crate::loop_nodes::loops::{
    augmenting, by_test, loop_back_label, loop_head_label, loop_step_label, start_loop,
};
pub use crate::loop_nodes::nodes::{body_with_end, head_node, leave_or, start_turn, third_node};
