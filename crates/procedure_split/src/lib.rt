//! The structured program that a program is restructured to: a paragraph of one sentence for each
//! range of its plan, and its own entries with those of the added items after them.
//!
//! `split` makes it from a program and the summary of its ranges, which shows that no flow path
//! comes to a fault (`specs/Splitting.antt`), and counts the added items (`specs/Counting.antt`).
//! `specs/Writing.antt` says what is written for shaped ranges.
#![tactic(auto)]

pub mod counter_serving;
mod counting;
mod entries;
pub mod kept_arms;
pub mod lowered_arms;
pub mod made_procedures;
pub mod one_split;
pub mod one_summary;
mod paragraphs;
mod placing;
pub mod plan;
pub mod report;
mod rows;
pub mod shaped_ranges;
pub mod split_behaviour;
pub mod split_depth;
pub mod split_form;
mod splitting;
mod writing;
pub mod written_depth;

pub use paragraphs::paragraphs_of;
pub use placing::places_of;
pub use rows::rows_of;
pub use splitting::split;
pub use writing::{Split, write_program};
