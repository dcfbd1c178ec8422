//! What references, operands, expressions and conditions give: where no fault of a name is noted,
//! each item that they name is there, and their numbers are valid.
//!
//! Nothing here runs.

ghost use Rattle.grammar_laws.specs.well_scoped.named_exprs.Laws.{ExpressionsGive};

/// Where no fault is noted, references, operands, expressions and conditions name items that are
/// declared.
pub fn expressions_give()
    ensures { ExpressionsGive }
{}
