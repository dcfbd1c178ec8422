//! Programs that can be printed: a text can have each of their names, numbers, literals and
//! pictures, so each of their lines has only tokens that a line may have.
//!
//! `specs/printable/Whole.antt` says which these are. Nothing here runs.

mod laws;
pub mod printable_control;
pub mod printable_data;
pub mod printable_division;
pub mod printable_exprs;
pub mod printable_stmts;
pub mod printable_tokens;

pub use crate::printable::laws::printable_programs_are_given;
