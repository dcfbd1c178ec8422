//! A program's places, by number: what control does at each, whatever the data.
//!
//! `specs/point_table/Table.antt` says when a table belongs to a program: each place says what a
//! step does at its point, as `program_points::paths` has it.

mod table;

pub use crate::point_table::table::{ProgramPoint, Table};
