//! Statements whose parts pass tests: they spell what is printed of them, and those of a PROCEDURE
//! DIVISION that is read with no fault pass the tests, over open parts and open tests of parts
//! (`specs/fitting_statements/Fits.antt`). Nothing here runs.

pub mod fit_control;
mod laws;
pub mod own_fits;
pub mod sound_bodies;

pub use crate::fitting_statements::laws::{
    Asks, Tests, fit_paragraphs_pass, fit_sentences_spell, fit_statements_spell,
    read_statements_fit,
};
