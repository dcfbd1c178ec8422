//! A program that is read counts by whole numbers: the operand of each TIMES and the item of each
//! GO TO DEPENDING are whole numbers. Nothing here runs.

ghost use Rattle.end_to_end_laws.specs.read_programs.whole_reading.Laws.{ProgramsThatAreReadCountWhole};

/// The operand of each TIMES in a program that is read is a whole number, ZERO, or an item that is
/// a number without decimal places, and so is the item of each GO TO DEPENDING.
pub fn programs_that_are_read_count_whole()
    ensures { ProgramsThatAreReadCountWhole }
{}
