//! What is printed of a readable program is read back as that program: the tokens of the printed
//! bytes declare what the program has, and spell it with these names. Nothing here runs.

ghost use Rattle.end_to_end_laws.specs.read_programs.readable_programs.Laws.{ReadableProgramsReadBack};

use cobol_print::{prints_all, programs_unfold};

/// Printed bytes of a readable program are that program.
pub fn readable_programs_read_back()
    ensures { ReadableProgramsReadBack }
{
    programs_unfold();
    prints_all();
}
