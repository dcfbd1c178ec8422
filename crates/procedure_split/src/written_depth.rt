//! How deep a program that is written of shaped bodies nests: no deeper than these bodies are
//! judged to before they are written. Nothing here runs.

ghost use Rattle.procedure_split.specs.written_depth.Laws.{ProgramsNestAsControl, StatementsNestAsControl, WrittenBodiesNestAsJudged, WrittenProgramsNestWithin};

/// Statements nest as deep as their control.
pub fn statements_nest_as_control()
    ensures { StatementsNestAsControl }
{}

/// A program nests as deep as its control.
pub fn programs_nest_as_control()
    ensures { ProgramsNestAsControl }
{}

/// What is written of a body nests at most as deep as the body is judged to.
pub fn written_bodies_nest_as_judged()
    ensures { WrittenBodiesNestAsJudged }
{}

/// No program that is written of procedures nests deeper than these are judged to.
pub fn written_programs_nest_within()
    ensures { WrittenProgramsNestWithin }
{}
