//! A program that is read can be printed: a text can have its names, numbers, literals and
//! pictures. Nothing here runs.

ghost use Rattle.end_to_end_laws.specs.read_programs.printable_reading.Laws.{ProgramsThatAreReadCanBePrinted};

/// Each program that some bytes read to can be printed.
pub fn programs_that_are_read_can_be_printed()
    ensures { ProgramsThatAreReadCanBePrinted }
{}
