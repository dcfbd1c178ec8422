//! The procedures that a program is split into may be written by what accepts the program's own
//! parts, and so can be printed. Nothing here runs.

ghost use Rattle.end_to_end_laws.specs.results.result_bodies.Laws.{ParagraphsAreWritten, SplitProceduresStand, SplitProgramsHaveFewProcedures, SplitProgramsPrint};

/// The control of what a program is split into is written of procedures; where the program's parts
/// may be written by some kinds, each procedure may be by what these accept besides the program's
/// own.
pub fn split_procedures_stand()
    ensures { SplitProceduresStand }
{}

/// Each paragraph of a program whose control is written of procedures holds one sentence, that of a
/// procedure.
pub fn paragraphs_are_written()
    ensures { ParagraphsAreWritten }
{}

/// A program without a fault is split into no more procedures than lowered graphs may have labels
/// and statements.
pub fn split_programs_have_few_procedures()
    ensures { SplitProgramsHaveFewProcedures }
{}

/// What a program that can be printed is split into can be printed, where the names of its
/// procedures can, and there are few words and added items.
pub fn split_programs_print()
    ensures { SplitProgramsPrint }
{}
