//! Exits: a node with a jump to itself, whose other live leaves have several targets, becomes a
//! loop, and then a choice of its targets.
//!
//! The loop goes on until its exit item is above zero; the item is 0 at the beginning. A leaf sets
//! it to the number of its target, from 1 in label order, and a return to the number after the last
//! one; the choice is by that item. The definition is that of the theory of control, `exits_graph`
//! in `control_flow_theory/specs/structuring/Closes.antt`, whose laws say that the rule keeps what
//! a walk does.

mod exits;
mod targets;

pub use crate::exit_rule::exits::{close_exits, exit_tree, may_exit};
