//! Reads what a statement has before and between the statements that it holds, over any readers of
//! operands, references, conditions and names (`Parts`).
//!
//! Each function reads exactly by the form of its name in `stmt_forms` (ISO 1989:1985, PROCEDURE
//! DIVISION), as `Reads` says. None of them calls itself: the lists of statements that are held are
//! read by a crate above.

mod arms;
mod choice;
mod read;

pub use crate::heads::arms::{end_word, end_work, enter_level, first_phrase, not_phrase};
pub use crate::heads::choice::{at_thru, evaluate_head, first_tests, if_head, thru, when_head};
pub use crate::heads::read::read_head;
