//! The tokens with which places, operands and expressions are printed spell them by the grammar,
//! where they can be printed. Nothing here runs.

ghost use Rattle.round_trip.specs.spelling.expr_spelling.Laws.{ExpressionsAreSpelled, ReferencesAreFound};

/// Places, operands and expressions that can be printed are spelled by the tokens with which they
/// are printed.
pub fn expressions_are_spelled()
    ensures { ExpressionsAreSpelled }
{}

/// A reference that was read stands for the same item where it is printed.
pub fn references_are_found()
    ensures { ReferencesAreFound }
{}
