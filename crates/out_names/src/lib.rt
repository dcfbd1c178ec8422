//! The names of a result: words that the program doesn't have, names of procedures, and their
//! order.
//!
//! `fresh` is to be compared with `specs/FreshWords`, `names` with `specs/Naming`, and `order` with
//! `specs/Ordering`. A fresh word isn't in the table, which is a clause of `fresh`.
#![tactic(auto)]

mod fresh_words;
mod naming;
mod ordering;
mod words;

pub use fresh_words::{FreshWord, fresh};
pub use naming::{names, paragraph_label};
pub use ordering::order;
pub use words::word_table;
