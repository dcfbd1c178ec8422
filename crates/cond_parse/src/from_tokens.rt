//! Conditions and expressions, read from a place in a list of tokens on.
//!
//! `parse_cond` and `parse_expr` give what the tokens from there on spell, with the number of the
//! token after it and the first name fault, or the first token at which they stop spelling it.
//! `specs/from_tokens/Answer` is to be compared with the forms of `cond_forms` and `expr_forms`.

mod answer;
mod cond;
mod expr;

pub use crate::from_tokens::answer::{CondPart, ExprPart};
pub use crate::from_tokens::cond::parse_cond;
pub use crate::from_tokens::expr::parse_expr;
