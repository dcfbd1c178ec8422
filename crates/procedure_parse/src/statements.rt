//! Reads statements to any level, over any readers of operands, references, conditions and names
//! (`Parts`).
//!
//! Each function reads exactly by the form of its name in `stmt_forms` (ISO 1989:1985, PROCEDURE
//! DIVISION), as `Reads` says. All except the lists of statements are private: they call each other
//! in a cycle.

mod held;

pub use crate::statements::held::{StmtContext, stmts_from, stmts_with};
