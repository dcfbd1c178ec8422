//! The fixed point: what a program that is read is split into isn't faulty, passes no limit, and
//! is split into itself.

ghost use Rattle.fixed_point_laws.specs.Results.{ResultsAreFixed};

use end_to_end_laws::results::readable_results::split_programs_read_back;

/// What a program that is read is split into, where it passes no limit of a text, isn't faulty,
/// passes no limit of restructuring, and is split into itself, with nothing added.
pub fn results_are_fixed()
    ensures { ResultsAreFixed }
{
    split_programs_read_back();
}
