//! What fits a program fits its result, which has entries of whole numbers after the program's own:
//! statements, conditions, choosers and amounts as they are written, and the words on cells, which
//! are these numbers. Nothing here runs.

ghost use Rattle.end_to_end_laws.specs.results.result_words.Carried.{StatementsArePassed};
ghost use Rattle.end_to_end_laws.specs.results.result_words.Laws.{OwnCondsFit, OwnPartsArePassed, PassingPartsAreServed, ResultNamesFit};

/// Statements that fit by some tests fit by others that require no more.
pub fn statements_are_passed()
    ensures { StatementsArePassed }
{}

/// Where entries of whole numbers with names of their own are added, what passes the tests of the
/// program passes those of the result, except for jumps.
pub fn own_parts_are_passed()
    ensures { OwnPartsArePassed }
{}

/// Each part of a program that passes may be written.
pub fn passing_parts_are_served()
    ensures { PassingPartsAreServed }
{}

/// Zero isn't compared with zero, and NOT of a condition passes where it isn't too large.
pub fn own_conds_fit()
    ensures { OwnCondsFit }
{}

/// The names of parts and of words on cells in the result pass the tests.
pub fn result_names_fit()
    ensures { ResultNamesFit }
{}
