//! What a program that is read is split into is readable, where it is within the limits of reading:
//! so what is printed of it is read back as it. Nothing here runs.

ghost use Rattle.end_to_end_laws.specs.results.readable_results.Laws.{SplitProgramsAreReadable, SplitProgramsReadBack};

use crate::read_programs::readable_programs::readable_programs_read_back;
use crate::results::fit_sources::programs_that_are_read_fit;
use round_trip::fitting_statements::own_fits::own_fits_spell;

/// What a program that is read is split into is readable, where it is within the limits of reading.
pub fn split_programs_are_readable()
    ensures { SplitProgramsAreReadable }
{
    own_fits_spell();
    programs_that_are_read_fit();
}

/// What is printed of such a result is read back as it.
pub fn split_programs_read_back()
    ensures { SplitProgramsReadBack }
{
    readable_programs_read_back();
    split_programs_are_readable();
}
