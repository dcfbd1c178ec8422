//! The ranges that the PERFORM statements of a program name.
//!
//! `specs/perform_ranges/Named.antt` says which they are. `ranges_of` gives main and each of them
//! once, in order, so that a range's number is found by binary search.

mod named;
mod rising;

pub use crate::perform_ranges::named::{named_paragraphs, named_stmts};
pub use crate::perform_ranges::rising::{is_before, place_of, ranges_of, rising_of};
