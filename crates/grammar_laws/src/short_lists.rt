//! Lists of names are short, over open forms of operands: where few tokens are left, each GO TO
//! DEPENDING that is read of them names few paragraphs, since each name takes a token.
//!
//! `specs/short_lists/Giving.antt` says what a form gives of few tokens. Nothing here runs.

pub mod exit_stmts;
mod laws;

pub use crate::short_lists::laws::statements_name_few;
