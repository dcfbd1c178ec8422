//! The headline for every program that is read: what it is split into is structured, and behaves
//! as it did.
//!
//! It combines the law on what programs are split into with the laws on what is read. Nothing here
//! runs: the functions are laws.

ghost use Rattle.end_to_end_laws.specs.results.read_headline.Laws.{ProgramsThatAreReadAreWellMade, ProgramsThatAreReadBehaveAlike, ProgramsThatAreReadAreStructured};

/// A program that is read is as splitting requires.
pub fn programs_that_are_read_are_well_made()
    ensures { ProgramsThatAreReadAreWellMade }
{}

/// Where the flow of a program that is read has no fault, what it is split into is structured, and
/// behaves as the program over all files.
pub fn programs_that_are_read_behave_alike()
    ensures { ProgramsThatAreReadBehaveAlike }
{}

/// What such a program is split into is a structured program of the tree: procedures with names, in
/// no section, of one sentence without a jump or an EXIT, each but the first performed from an
/// earlier one, and STOP RUN last in the first.
pub fn programs_that_are_read_are_structured()
    ensures { ProgramsThatAreReadAreStructured }
{}
