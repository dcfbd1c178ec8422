//! Reads references, operands and expressions from the left.
//!
//! Each function reads exactly by the form of its name in `expr_forms` (ISO 1989:1985, identifiers
//! and arithmetic expressions), by `Reads`: what it takes, what it gives, and where and why it
//! stops. `data_reference`, `data_operand` and `whole_expr` are what statements call; the others go
//! on within a condition, with the levels of parentheses left and the terms counted so far.
#![tactic(auto)]

pub mod actions;
mod context;
mod expression;
mod front;
mod levels;
mod reference;
mod subscript;
mod window;

pub use context::ExprContext;
pub use expression::{expr, operand, sum, unary};
pub use levels::{data_operand, data_reference, data_reference_behind, whole_expr};
