//! Reads data description entries (ISO 1989:1985) to drafts, and words that may be one or another.
//!
//! Each function mirrors the form of its name in `data_forms`, which is what is to be compared with
//! the standard, and is exact by it: it reads what the form reads, and stops where the form stops.

mod choice;
mod clause;
mod description;
mod lists;

pub use crate::entries::choice::{either, headed, header, maybe_either, sees_either};
pub use crate::entries::description::entry;
pub use crate::entries::lists::pushed;
