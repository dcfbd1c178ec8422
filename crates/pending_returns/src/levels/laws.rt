//! The facts that a table gives are what flow paths do.

ghost use Rattle.pending_returns.specs.levels.Laws.{TableIsExact, FactsAreExact};

/// Where a table belongs to a program and its returns are sound and closed, a level comes to the
/// same places in the table as in the program.
pub fn table_is_exact()
    ensures { TableIsExact }
{}

/// The facts that a level's places give are what its paths do.
pub fn facts_are_exact()
    ensures { FactsAreExact }
{}
