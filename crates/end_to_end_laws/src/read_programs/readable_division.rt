//! What is printed of a program that is read is read back as that program, unless it has more bytes
//! or tokens than a source may have: what is read of each part of its statements is spelled by what
//! is printed of it. Nothing here runs.

ghost use Rattle.end_to_end_laws.specs.read_programs.readable_division.Laws.{ProgramsThatAreReadAreReadable, ProgramsThatAreReadReadBack, ReadPartsFit};

use crate::read_programs::readable_programs::readable_programs_read_back;

/// With the names of a program, the parts of statements by which it is read fit those by which what
/// is printed of it is read again.
pub fn read_parts_fit()
    ensures { ReadPartsFit }
{}

/// A program that is read is readable, where what is printed of it is short enough.
pub fn programs_that_are_read_are_readable()
    ensures { ProgramsThatAreReadAreReadable }
{}

/// Printed bytes of a program that is read are that program, where a source may have so many bytes
/// and tokens.
pub fn programs_that_are_read_read_back()
    ensures { ProgramsThatAreReadReadBack }
{
    readable_programs_read_back();
    programs_that_are_read_are_readable();
}
