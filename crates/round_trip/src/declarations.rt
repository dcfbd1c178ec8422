//! What divisions declare with no fault keeps the rules of printed declarations, so that what is
//! printed of it declares the same. Nothing here runs.

pub mod added_entries;
pub mod fresh_items;
mod laws;
pub mod printed_declarations;
pub mod printed_pictures;

pub use crate::declarations::laws::{declared_programs_keep_rules, printed_declarations_read_back};
