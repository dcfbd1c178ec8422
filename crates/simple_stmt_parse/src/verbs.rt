//! Reads statements that hold no others, over any readers of operands, references, conditions and
//! names (`Parts`).
//!
//! Each function reads exactly by the form of its name in `stmt_forms` (ISO 1989:1985, PROCEDURE
//! DIVISION), as `Reads` says: what it takes and makes, and where and why it stops.

mod file;
mod jump;
mod moving;
mod simple;

pub use crate::verbs::jump::exit_behind;
pub use crate::verbs::simple::simple_stmts;
