//! Laws of plans.

ghost use Rattle.procedure_split.specs.plan.Laws.{PlansAreByPaths, CobolPlansAreByPaths, CobolProgramsHavePlans};
ghost use Rattle.procedure_split.specs.plan.Ordered.{OrdersPutCallersFirst};

/// The order of procedures has each range once, and before those that it calls, where none calls
/// itself, directly or not.
pub fn orders_put_callers_first()
    ensures { OrdersPutCallersFirst }
{}

/// The plan that its summary gives a source that isn't faulty is the one by its flow paths.
pub fn plans_are_by_paths()
    ensures { PlansAreByPaths }
{}

/// The same of a COBOL program that names its own items and paragraphs and isn't faulty, by its
/// summary.
pub fn cobol_plans_are_by_paths()
    ensures { CobolPlansAreByPaths }
{}

/// With the nodes that are reached, such a program has what the headline requires of its flow.
pub fn cobol_programs_have_plans()
    ensures { CobolProgramsHavePlans }
{}
