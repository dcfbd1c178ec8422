//! The labels of a lowered graph: where each point of a program goes on, and the nodes of a loop.
//!
//! `points` numbers statements and paragraph ends in text order and gives the target of each jump;
//! `loop_nodes` makes the trees at the labels of a loop. Both are to be compared with `build` and
//! `loop_nodes` of `control_flow_theory/specs/lowering/Lower`, whose laws say that lowering keeps
//! what a source does.
#![tactic(auto)]

pub mod loop_nodes;
pub mod points;
