//! The lines that describe a trail.
//!
//! `trail_text` gives them; `specs/notes/Trail.antt` defines each part of a line. The first line
//! names the fault; then comes a line for each lemma, numbered from 0, and one for each hop.

mod level;
mod trail;

pub use crate::notes::trail::{fault_text, trail_text};
