//! What else the grammar gives where no fault is noted: statements count by whole numbers, entries
//! have what they need, headers declare all paragraphs, and both readings of the divisions before
//! the PROCEDURE DIVISION take the same tokens.
//!
//! Begin with `specs/whole_counts/whole_stmts/Parts.antt` and
//! `specs/whole_counts/whole_entries/Fitting.antt`. `specs/whole_counts/entry_bounds/Bounds.antt`
//! is to be compared with the rules of `declaration_checks`, and
//! `specs/whole_counts/term_counts/Count.antt` with the limits in docs/LANGUAGE.md. Nothing here
//! runs.

pub mod entry_bounds;
pub mod header_counts;
pub mod status_readings;
pub mod term_counts;
pub mod whole_division;
pub mod whole_entries;
pub mod whole_stmts;
