//! From control to COBOL: what COBOL programs mean, and that what is written for one behaves as it.
//!
//! Begin with `specs/cobol_meaning`: `Acting.antt` is to be compared with the table of
//! docs/MEANING.md, and `Same.antt` with what that calls the same behaviour.
//! `specs/cobol_headline/Alike.antt` is the headline, with its premises; the other modules say that
//! a program's parts and its added items meet these. Nothing here runs.
#![tactic(auto)]

pub mod added_items;
pub mod cell_items;
pub mod cell_serving;
pub mod cobol_headline;
pub mod cobol_meaning;
pub mod cobol_parts;
pub mod named_items;
pub mod own_paragraphs;
pub mod served_programs;
pub mod stored_numbers;
