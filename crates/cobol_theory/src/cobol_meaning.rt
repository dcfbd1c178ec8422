//! What COBOL programs mean.
//!
//! `source_run` is the theory's source machine over a program's control, whose parts do what
//! `meanings::statements` says to the store and to the world; `structural_run` is what its nested
//! statements mean; `SameBehaviour` says that two programs can't be distinguished from outside.
//! `Acting` is to be compared with the table of docs/MEANING.md. Nothing here runs: the functions
//! are laws.

ghost use Rattle.cobol_theory.specs.cobol_meaning.Laws.{StructuredBehavesAsItself, StructuredMeetsNoFault};

/// A structured program's nested statements mean what its steps do, and no fault of flow is met.
pub fn a_structured_program_behaves_as_itself()
    ensures same { StructuredBehavesAsItself }
    ensures faultless { StructuredMeetsNoFault }
{}
