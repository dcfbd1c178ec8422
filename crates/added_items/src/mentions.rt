//! Where a shaped body names the cells of its range, in the order of its text.
//!
//! `cell_uses` in `specs/mentions/CellUse.antt` is the definition: a choice names the cell that
//! chooses, or its test's cell, and then its arms name theirs; a loop names its test's cell, and
//! then its body names its own. The program's own statements name none, which the call itself
//! tests.

mod bodies;
mod cell_use;

pub use crate::mentions::bodies::cell_uses;
pub use crate::mentions::cell_use::CellUse;
