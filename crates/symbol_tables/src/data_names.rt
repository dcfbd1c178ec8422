//! The names that a program declares, and what a reference to one of them stands for.
//!
//! A `NameTable` has the names of a program's files and entries; `look` and `look_file` look a
//! reference up in it, `look` among the items that its word names or that one of its qualifiers may
//! qualify, whichever are fewest. `specs/data_names/Grouping` and `specs/data_names/Look` are to be
//! compared with ISO 1989:1985, data description entries (level numbers) and uniqueness of
//! reference: an item fits a reference where its name matches and the qualifiers are names of
//! groups above it or its file, in their order. `nestings_of` gives the group of each entry, in
//! time that is linear in the number of entries.

mod above;
mod grouping;
mod index;
mod name;
mod nesting;
mod table;

pub use crate::data_names::grouping::{
    bound_of, has_items, holds, is_numbered, repeats, same_file,
};
pub use crate::data_names::name::{ItemKind, Name, Referent};
pub use crate::data_names::nesting::{Nesting, nesting_at, nestings_of};
pub use crate::data_names::table::{NameTable, is_group};
