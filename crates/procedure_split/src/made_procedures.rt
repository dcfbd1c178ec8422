//! The paragraphs made of a program's shaped ranges are the program that the headline is about:
//! laws alone.
//!
//! `specs/made_procedures/Made.antt` says what is made of each range, `Laws.antt` in the same
//! folder what follows.

ghost use Rattle.procedure_split.specs.made_procedures.Laws.{MadeProceduresAreWritten};
ghost use Rattle.procedure_split.specs.made_procedures.Staying.{StatementsAreSeenAlike};

/// Statements that don't leave their section have the same control in any section.
pub fn statements_are_seen_alike()
    ensures { StatementsAreSeenAlike }
{}

/// The control of paragraphs that are made so is that of the plan's closed graphs, written as
/// statements.
pub fn made_procedures_are_written()
    ensures { MadeProceduresAreWritten }
{}
