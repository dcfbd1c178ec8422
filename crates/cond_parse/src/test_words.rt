//! The parts of conditions that hold no expression: relation signs and the words of tests, what a
//! side without a test is, and what AND and OR join.
//!
//! Each function reads or makes exactly what the definition of its name in `cond_forms` says
//! (ISO 1989:1985, conditional expressions).

mod alone;
mod joined;
mod relation;
mod test;
mod token;

pub use crate::test_words::alone::{alone_part, part_by, part_of, with_rel};
pub use crate::test_words::joined::{and_joined, close_cond, close_side, joined_whole, or_joined};
pub use crate::test_words::relation::rel;
pub use crate::test_words::test::{class_or, read_test, relation_of, sign_test};
pub use crate::test_words::token::{at_join, at_plain_rel, at_rel, at_rel_behind, at_sign};
