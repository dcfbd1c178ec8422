//! How many terms the largest condition or expression of a program has, and the limit on them that
//! holds of the result.
//!
//! Leaves, NOTs and unary signs are terms. A window in an expression or condition adds its terms to
//! it; elsewhere it has one or two expressions of its own (`specs/term_counts/Expression.antt`).
//! `specs/term_counts/Program.antt` is to be compared with the limits in docs/LANGUAGE.md. Nothing
//! here allocates.

mod condition;
mod expression;
mod part;
mod program;
mod statement;

pub use crate::term_counts::program::{passes_terms, terms_limit, terms_of};
