//! What a program that is read is split into is structured, behaves as the program, and is read
//! back.
//!
//! Begin with `specs/results/read_headline/Laws.antt` and
//! `specs/results/readable_results/Laws.antt`; they are to be compared with "The headline" in
//! docs/PROMISES.md. The other modules have that from which the second follows: what a result
//! declares, that its words and parts fit, and what its procedures are called. Nothing here runs.

pub mod added_reading;
pub mod fit_sources;
pub mod read_headline;
pub mod readable_results;
pub mod restructured_programs;
pub mod result_bodies;
pub mod result_entries;
pub mod result_procedures;
pub mod result_words;
