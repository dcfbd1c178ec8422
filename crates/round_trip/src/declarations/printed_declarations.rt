//! Drafts that say of a program's files and entries what these are declare exactly these, with no
//! fault, where they keep the rules. Nothing here runs.

ghost use Rattle.round_trip.specs.declarations.printed_declarations.Laws.{PrintedDivisionsDeclare};

/// Drafts that say of a program's files and entries what these are declare them, with no fault.
pub fn printed_divisions_declare()
    ensures { PrintedDivisionsDeclare }
{}
