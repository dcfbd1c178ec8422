//! The rules of restructuring keep the arms of choices. So what a program is split into nests
//! within the limit on what its ranges are shaped to, where the choices of its graphs have arms.
//! Nothing here runs.

ghost use Rattle.procedure_split.specs.kept_arms.Laws.{RulesKeepArms, SplitProgramsOfGraphsNestWithin};

/// The choices of what the rules leave of a graph have arms, where the graph's own have.
pub fn rules_keep_arms()
    ensures { RulesKeepArms }
{}

/// What a program is split into nests within the limit, where the choices of its graphs have arms.
pub fn split_programs_of_graphs_nest_within()
    ensures { SplitProgramsOfGraphsNestWithin }
{}
