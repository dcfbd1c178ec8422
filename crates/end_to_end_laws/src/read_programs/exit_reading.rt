//! EXIT without a further word is alone in the sentences of a program that is read. Nothing here
//! runs.

ghost use Rattle.end_to_end_laws.specs.read_programs.exit_reading.Laws.{ProgramsThatAreReadExitAlone};

/// EXIT without a further word is alone in the sentences of a program that is read.
pub fn programs_that_are_read_exit_alone()
    ensures { ProgramsThatAreReadExitAlone }
{}
