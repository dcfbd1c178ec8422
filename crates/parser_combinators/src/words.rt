//! The words and literals of a program's own: which tokens they are, and how they are read.
//!
//! `specs/words/Word` is to be compared with ISO 1989:1985, user-defined words, and
//! `specs/words/Constant` with literals and figurative constants. `words_are_read` says that each
//! form reads what it spells and nothing else.

mod constant;
mod laws;
mod word;

pub use crate::words::constant::{literal, sees_digits, sees_literal, sees_text};
pub use crate::words::laws::words_are_read;
pub use crate::words::word::{name, sees_name, user_word};
