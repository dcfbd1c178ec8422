//! Reads PERFORM up to the statements that it holds, over any readers of operands, references,
//! conditions and names (`Parts`).
//!
//! Each function reads exactly by the form of its name in `stmt_forms` (ISO 1989:1985, PROCEDURE
//! DIVISION), as `Reads` says.

mod control;

pub use crate::perform::control::perform_head;
