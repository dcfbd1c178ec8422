//! Reads the IDENTIFICATION, ENVIRONMENT and DATA DIVISIONs (ISO 1989:1985) to drafts.
//!
//! Each function mirrors the form of its name in `data_forms`, which is what is to be compared with
//! the standard, and is exact by it: it reads what the form reads, and stops where the form stops.
//! How a status item is referred to is left to a `StatusReader`.
#![tactic(auto)]

mod division;
pub mod entries;
mod fd;
mod file_control;
mod status;

pub use division::{data_part, divisions};
pub use file_control::environment;
pub use status::StatusReader;
