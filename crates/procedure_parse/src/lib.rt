//! Reads the PROCEDURE DIVISION, over any readers of operands, references, conditions and names
//! (`Parts`).
//!
//! `parse_procedure` gives the paragraphs that a list of tokens spells from a place on, or the
//! first fault with its line. `specs/Answer` is to be compared with the forms of `stmt_forms` (ISO
//! 1989:1985, PROCEDURE DIVISION). `division` reads exactly by the form of its name.
#![tactic(auto)]

mod answer;
pub mod drafts;
mod paragraph;
pub mod statements;

pub use answer::parse_procedure;
pub use paragraph::division;
