//! Join and Inline, on trees and graphs of code.
//!
//! Join: a choice whose arms end in leaves with at most one target becomes a statement, and that
//! target the end; with no target the end is dead. Inner choices come first. Inline: a node to
//! which exactly one leaf of the graph jumps, from another node, and which isn't the entry, takes
//! the place of that leaf. The definitions are those of the theory of control,
//! `control_flow_theory/specs/graph_rules/Shapes.antt` and `Reduced.antt`, whose laws say that the
//! rules keep what a walk does.
#![tactic(auto)]

mod inlining;
mod joining;
mod putting;
mod targets;

pub use inlining::{inline, inline_into, may_inline};
pub use joining::{join, join_at};
pub use putting::put;
pub use targets::{Targets, other_targets};
