//! The headline for COBOL programs: what is written for a program behaves as the program.
//!
//! It combines the headline over control with what COBOL's parts and items do. Nothing here runs:
//! the function is a law.

ghost use Rattle.cobol_theory.specs.cobol_headline.Alike.{WhatAProgramIsWrittenAsBehavesAlike};

/// A program that isn't faulty, lowered by a plan, closed by the rules and written with an item for
/// each cell, is structured and behaves as it did, over all files.
pub fn what_a_program_is_written_as_behaves_alike()
    ensures { WhatAProgramIsWrittenAsBehavesAlike }
{}
