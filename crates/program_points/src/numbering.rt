//! A program's places, numbered: the tree to a table.
//!
//! The first places are the starts of the paragraphs, and the next ones their ends; lists are
//! numbered from their last statement to the first, so that the place after each is known.
//! `specs/numbering/Build.antt` says what the added places have to be.

mod build;
mod kind;
mod paragraph;

pub use crate::numbering::build::{Builder, Exits, Here};
pub use crate::numbering::kind::{LoopStart, is_silent, kind_of};
