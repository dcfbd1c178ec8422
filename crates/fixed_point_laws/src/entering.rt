//! Which paragraphs of a result flow paths enter.

ghost use Rattle.fixed_point_laws.specs.Entering.{ResultsAreEntered};

/// Flow paths enter each paragraph of a result.
pub fn results_are_entered()
    ensures { ResultsAreEntered }
{}
