//! What a program is split into nests within the limit on nesting: lowering gives each choice of a
//! graph its arms, where the program's statements are such as reading gives. Nothing here runs.

ghost use Rattle.procedure_split.specs.lowered_arms.Laws.{ProgramsSplitNestWithinTheLimit};

/// What a program is split into nests within the limit, where its statements are such as reading
/// gives.
pub fn programs_split_nest_within_the_limit()
    ensures { ProgramsSplitNestWithinTheLimit }
{}
