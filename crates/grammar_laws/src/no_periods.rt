//! No token that statements take is a period, so that a period ends each sentence. Nothing here
//! runs.

ghost use Rattle.grammar_laws.specs.no_periods.Laws.{StatementsTakeNoPeriod};

/// In a program with these names, entries and procedures no statement takes a period.
pub fn statements_take_no_period()
    ensures { StatementsTakeNoPeriod }
{}
