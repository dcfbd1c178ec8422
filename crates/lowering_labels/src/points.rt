//! The places of a program, and where a rest of it goes on: the tables that lowering is based on.
//!
//! `layout_of` is to be compared with the numbering of places, paragraphs and after each its
//! statements in text order (`control_flow_theory/specs/lowering/Lowered`), `jump_target_of` with
//! what a continuation is, and `paragraph_end_target` with the end of a paragraph in a range
//! (`control_flow_theory/specs/lowering/Lower`). Contracts are about any numbering that gives the
//! places of the table, so that those of the theory are among them.

mod fall_through;
mod jump_target;
mod layout;
mod size;

pub use crate::points::fall_through::{paragraph_end_target, section_last};
pub use crate::points::jump_target::{JumpTarget, jump_target_of, point};
pub use crate::points::layout::{PlaceTable, layout_of};
pub use crate::points::size::{stmt_size, stmts_size};
