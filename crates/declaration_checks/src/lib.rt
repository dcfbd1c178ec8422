//! The rules on files and data entries: what drafts declare, and their first fault.
//!
//! `declared_of` makes the files and entries of a program from their drafts, and checks the rules
//! on levels, pictures, usages, REDEFINES, VALUE and where clauses are allowed (ISO 1989:1985, the
//! data description entry), and on names of files that are there twice or lack their SELECT or FD.
//! Of several faults the first in the order of tokens counts; `specs/Rule` has the rules of an
//! entry.
#![tactic(auto)]

mod base;
mod clause;
mod declaring;
mod fault;
mod file;
mod file_names;
mod item;
mod judging;
mod literal;
mod redefining;
mod rule;
mod standing;
mod table;
mod usage;
mod value;

pub use declaring::{Declared, declared_of};
