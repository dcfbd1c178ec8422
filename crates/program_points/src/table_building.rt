//! A whole program's places, by number.
//!
//! `table_of` numbers a program: the table that it gives belongs to the program, as
//! `program_points::point_table` has it, and is tidy. `specs/table_building/Numbering.antt` says
//! what holds when the paragraphs from one on are done.

mod begin;
mod finish;
mod number;
mod paragraph;

pub use crate::table_building::begin::{Numbering, begun, first_places, numbers_twice};
pub use crate::table_building::finish::{bounds_entries, finished, numbers};
pub use crate::table_building::number::{build_paragraphs, last_of, table_of};
pub use crate::table_building::paragraph::{build_paragraph, copied, own};
