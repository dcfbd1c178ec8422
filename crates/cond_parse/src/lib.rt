//! Reads conditions from the left, abbreviated ones too.
//!
//! Each function reads exactly by the form of its name in `cond_forms` (ISO 1989:1985, conditional
//! expressions), by `Reads`: what it takes, what it gives, and where and why it stops. Statements
//! call `whole_cond`.
//!
//! Trees are dropped by calls of `drop`, so a call that may stop while a tree is alive is in a
//! `match`, without `?`: docs/CONTRIBUTING.md says why.
#![tactic(auto)]

mod condition;
pub mod from_tokens;
mod neg;
mod primary;
mod test;
pub mod test_words;

pub use condition::{cond, whole_cond};
