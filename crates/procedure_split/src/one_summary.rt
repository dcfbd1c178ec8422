//! A program has one summary: which ranges its flow paths perform, in their order, and what each of
//! them does. Nothing here runs.

ghost use Rattle.procedure_split.specs.one_summary.Laws.{SummariesAreOne};

/// Two summaries of one program say the same about the same ranges.
pub fn summaries_are_one()
    ensures { SummariesAreOne }
{}
