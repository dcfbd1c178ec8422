//! A program that is read is as the headline for COBOL programs requires: it names its own items
//! and paragraphs, its entries have levels and don't begin with a level 88, and the items of its
//! files and values are its own. Nothing here runs.

ghost use Rattle.end_to_end_laws.specs.read_programs.proper_programs.Laws.{ProgramsThatAreReadAreProper};

/// The headline for COBOL programs applies to each program that is read.
pub fn programs_that_are_read_are_proper()
    ensures { ProgramsThatAreReadAreProper }
{}
