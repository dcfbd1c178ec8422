//! The dispatch: the nodes that are left become one, a loop that chooses a node's tree by a state
//! item.
//!
//! Nodes are numbered from 1 in label order. The state is set to the entry's number; the loop goes
//! on until it is 0. A jump sets it to its target's number, and a return to 0; after the loop comes
//! a return, where some leaf returns; otherwise it is dead. The definition is that of the theory of
//! control, `dispatch_graph` in `control_flow_theory/specs/structuring/Closes.antt`.
#![tactic(auto)]

mod dispatching;
mod numbers;
mod returns;

pub use dispatching::dispatch;
pub use returns::tree_returns;
