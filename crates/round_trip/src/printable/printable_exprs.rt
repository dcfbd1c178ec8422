//! What references, operands, expressions and conditions give of tokens that can be printed: they
//! can be printed too. Nothing here runs.

ghost use Rattle.round_trip.specs.printable.printable_exprs.Laws.{ExpressionsArePrintable};

/// Where tokens can be printed, the references, operands, expressions and conditions that are read
/// can be.
pub fn expressions_are_printable()
    ensures { ExpressionsArePrintable }
{}
