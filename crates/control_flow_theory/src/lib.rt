//! The theory of control: a source is lowered to graphs, which are closed by the rules and written
//! as a structured program that behaves as the source, whatever its parts do to a memory.
//!
//! Begin with `specs/main_theorem/MainTheorem.antt`: the premises on a program and its parts, and
//! what follows for them. `lowering`, `graph_rules`, `structuring` and `rendering` are the steps,
//! in this order; their definitions are to be compared with docs/RESTRUCTURING.md. Nothing here
//! runs.
#![tactic(auto)]

pub mod expressible_graphs;
pub mod graph_rules;
pub mod language;
pub mod lowering;
pub mod main_theorem;
pub mod rendering;
pub mod runs;
pub mod semantics;
pub mod semantics_agree;
pub mod structuring;
