//! The statements of a program that is read pass the tests of the names that it declares. Nothing
//! here runs.

ghost use Rattle.end_to_end_laws.specs.results.fit_sources.Laws.{ProgramsThatAreReadFit, ReadPartsPass};

/// Each part that is read by a program's own names with no fault noted passes the test of each use
/// for which it has no fault.
pub fn read_parts_pass()
    ensures { ReadPartsPass }
{}

/// The statements of a program that some bytes read to pass the tests of its own names, each label
/// and each range passing as one, are in scope, and nest no deeper than they may.
pub fn programs_that_are_read_fit()
    ensures { ProgramsThatAreReadFit }
{}
