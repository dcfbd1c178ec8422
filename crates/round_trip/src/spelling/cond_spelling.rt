//! The tokens with which conditions are printed spell them by the grammar, where they can be
//! printed. Nothing here runs.

ghost use Rattle.round_trip.specs.spelling.cond_spelling.Laws.{ConditionsAreSpelled, ConditionsBeforeNot};

/// Conditions that can be printed are spelled by the tokens with which they are printed.
pub fn conditions_are_spelled()
    ensures { ConditionsAreSpelled }
{}

/// How a condition ends decides whether a NOT after it is read with it.
pub fn conditions_stand_before_not()
    ensures { ConditionsBeforeNot }
{}
