//! What the PROCEDURE DIVISION gives of tokens that can be printed, with the names of a program:
//! paragraphs that can be printed. Nothing here runs.

ghost use Rattle.round_trip.specs.printable.printable_division.Laws.{DivisionsPrint};

/// Where tokens can be printed and no fault is noted, the paragraphs of the PROCEDURE DIVISION that
/// is read can be printed.
pub fn divisions_print()
    ensures { DivisionsPrint }
{}
