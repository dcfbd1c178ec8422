//! The whole PROCEDURE DIVISION counts by whole numbers, over names that fit the entries of a
//! program: where no fault of a name is noted, the operand of each TIMES and the item of each GO TO
//! DEPENDING are whole numbers.
//!
//! Nothing here runs.

ghost use Rattle.grammar_laws.specs.whole_counts.whole_division.Laws.{DivisionCountsWhole};

/// Where no fault is noted, the statements of the division count by whole numbers.
pub fn division_counts_whole()
    ensures { DivisionCountsWhole }
{}
