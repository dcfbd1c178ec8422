//! The entries of added items, which come after a program's own: level 01, PIC 9 or S9 and VALUE 0.
//!
//! `entries_of` in `cobol_theory/specs/cell_serving/Entries.antt` is the definition.

mod entries;

pub use crate::entries::entries::add_entries;
