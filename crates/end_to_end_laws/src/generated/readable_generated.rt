//! What is printed of a generated program is read back as that program. Nothing here runs.

ghost use Rattle.end_to_end_laws.specs.generated.readable_generated.Laws.{GeneratedProgramsAreReadable, GeneratedProgramsReadBack};

use crate::read_programs::readable_programs::readable_programs_read_back;

/// A generated program is readable.
pub fn generated_programs_are_readable()
    ensures { GeneratedProgramsAreReadable }
{}

/// Printed bytes of a generated program are that program.
pub fn generated_programs_read_back()
    ensures { GeneratedProgramsReadBack }
{
    readable_programs_read_back();
    generated_programs_are_readable();
}
