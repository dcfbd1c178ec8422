//! Words on cells as statements, conditions and choices on the items of the cells.
//!
//! The contracts define them by the theory's `written_stmt`, in
//! `control_flow_theory/specs/rendering/Rendering.antt`, with the names of
//! `cobol_theory/specs/cell_serving/Naming.antt`. An item is one of a program's entries, and a word
//! of the program's own names no added item: where that isn't so, the answer is out of memory.

mod cells;
mod choices;
mod numbers;
mod tests;
mod whens;

pub use crate::item_words::cells::{CellItem, item_of, lower_cell, set_cell, take_cell};
pub use crate::item_words::choices::{BothArms, choose, drop_lists, drop_stmts};
pub use crate::item_words::numbers::whole_literal;
pub use crate::item_words::tests::{loop_until, written_test};
