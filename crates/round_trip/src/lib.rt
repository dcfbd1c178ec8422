//! What is printed of a program is read back as it: laws alone. Nothing here runs.
//!
//! In reading order: `printable` says which programs can be printed, `spelled_forms` and `spelling`
//! that what is printed of their parts spells these by the grammar, `procedures` that paragraphs
//! are found again by their labels, `declarations` that entries declare what they did, and
//! `fitting_statements` that statements whose parts pass tests are spelled. The crate
//! `end_to_end_laws` combines them.
#![tactic(auto)]

pub mod declarations;
pub mod fitting_statements;
pub mod printable;
pub mod procedures;
pub mod spelled_forms;
pub mod spelling;
