//! A program of one STOP RUN, which is restructured to itself.

ghost use Rattle.fixed_point_laws.specs.Example.{StoppingComesAgain};

/// STOP RUN alone is written as itself, and so meets the premises on a result that is restructured
/// to itself.
pub fn stopping_comes_again()
    ensures { StoppingComesAgain }
{}
