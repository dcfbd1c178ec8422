//! How conditions are spelled, abbreviated ones too: a form for each production (ISO 1989:1985,
//! conditional expressions; abbreviations as docs/LANGUAGE.md has them), which gives the condition
//! in the tree and the first fault of a name in it.
//!
//! `conditions_are_read` says that each form reads what it spells and nothing else, and stops at
//! the first fault; `levels_only_add` that more levels of parentheses only add. The crate has no
//! code that reads.

mod laws;
mod part;
mod test;

pub use crate::cond_forms::laws::{conditions_are_read, levels_only_add};
pub use crate::cond_forms::part::{Joined, SimpleCond};
pub use crate::cond_forms::test::{Primary, Read, Setting};
