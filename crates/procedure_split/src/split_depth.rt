//! How deep a split program nests: within the limit on what its ranges are shaped to, where their
//! choices have arms. Nothing here runs.

ghost use Rattle.procedure_split.specs.split_depth.Laws.{NamedStatementsHaveArms, SplitProgramsNestWithin, WrittenStmtsNestAsJudged};

/// What is written of a body whose choices have arms nests exactly as deep as the body is judged
/// to.
pub fn written_stmts_nest_as_judged()
    ensures { WrittenStmtsNestAsJudged }
{}

/// The choices of statements such as reading gives have arms.
pub fn named_statements_have_arms()
    ensures { NamedStatementsHaveArms }
{}

/// What a program is split into nests within the limit, where the choices of its bodies have arms.
pub fn split_programs_nest_within()
    ensures { SplitProgramsNestWithin }
{}
