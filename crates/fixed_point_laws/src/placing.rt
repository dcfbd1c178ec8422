//! The names of the procedures of a result that is restructured again.

ghost use Rattle.fixed_point_laws.specs.Placing.{NamesComeAgain};

/// Ranges that are in the order of their paragraphs have the names of these.
pub fn names_are_labels()
    ensures { NamesComeAgain }
{}
