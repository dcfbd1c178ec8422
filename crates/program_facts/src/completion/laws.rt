//! Laws of what is cut.

ghost use Rattle.program_facts.specs.completion.Laws.{SectionsSeeWholeStatementsAlike};

/// The control of a statement without an escape is the same in whatever section it is.
pub fn sections_see_whole_statements_alike()
    ensures { SectionsSeeWholeStatementsAlike }
{}
