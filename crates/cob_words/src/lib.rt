//! Reserved words, and words by number.
//!
//! `reserved` and `left_out` look a word up in the two lists of `specs/Lists` without allocating;
//! the lists are to be compared with ISO 1989:1985, reserved words. A `WordTable` gives each word
//! the number of those that were added before it.
#![tactic(auto)]

pub mod first_places;
mod lists;
pub mod numbered;
mod table;

pub use lists::{left_out, reserved};
pub use table::WordTable;
