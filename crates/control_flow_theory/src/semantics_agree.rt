//! A structured program has one meaning: the source machine does what its nested statements do.
//!
//! A structured program holds no jump, and each of its paragraphs but the first is performed from
//! an earlier one. The law is `a_structured_program_agrees`: both meanings show the same, and no
//! fault of flow is met. Nothing here runs: the contracts are the laws.

ghost use Rattle.control_flow_theory.specs.semantics_agree.Laws.{MoreUnitsShowMore, NestedEndFairly, StructuredAgrees, StructuredBehavesTheSame, StructuredMeetsNoFault, StructuredNeverFallsThrough};

/// With more units nested statements show at least as much; they go on or stop.
pub fn more_units_show_more<Memory, Left>()
    ensures steady { MoreUnitsShowMore Memory Left }
    ensures fair { NestedEndFairly Memory Left }
{}

/// The source machine on a structured program does what its nested statements do, and never meets a
/// fault of its flow.
pub fn a_structured_program_agrees<Memory, Left>()
    ensures tied { StructuredAgrees Memory Left }
    ensures same { StructuredBehavesTheSame Memory Left }
    ensures faultless { StructuredMeetsNoFault Memory Left }
{}

/// In a structured program control never passes from the end of one paragraph to the next.
pub fn a_structured_program_never_falls_through<Memory, Left>()
    ensures { StructuredNeverFallsThrough Memory Left }
{}
