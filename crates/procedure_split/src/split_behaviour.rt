//! What a program without a fault is split into behaves as the program, and is structured: the
//! headline of COBOL programs, for the program that is made.
//!
//! It combines the law on what a program is written as with what is proved about its plan, its
//! shaped ranges and the items of its cells. Nothing here runs: the functions are laws.

ghost use Rattle.procedure_split.specs.split_behaviour.Alike.{SplitProgramsBehaveAlike, SplitProgramsHaveNames};

/// What a program without a fault is split into is structured, and behaves as the program over all
/// files.
pub fn split_programs_behave_alike()
    ensures { SplitProgramsBehaveAlike }
{}

/// Each paragraph of what a program without a fault is split into has a name, and is in no section.
pub fn split_programs_have_names()
    ensures { SplitProgramsHaveNames }
{}
