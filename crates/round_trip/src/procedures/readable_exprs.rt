//! References, operands, expressions and conditions that are read with no name fault can be printed
//! so that they are read back, with the names of their own program. Nothing here runs.

ghost use Rattle.round_trip.specs.procedures.readable_exprs.Laws.{ExpressionsAreReadable};

/// What is read with no name fault, with the names of its own program, can be printed so that it is
/// read back.
pub fn expressions_are_readable()
    ensures { ExpressionsAreReadable }
{}
