//! What comes before the PROCEDURE DIVISION is first read without names, to learn what it declares.
//! Except for status items, this is what the divisions declare when they are read with these names.
//! So a program is read with the names of its own files and entries. Nothing here runs.

ghost use Rattle.end_to_end_laws.specs.read_programs.own_names.Laws.{AlikeDivisionsDeclareAlike, ProgramsAreReadOverTheirOwnNames};

/// Divisions that are the same except for status items declare the same entries with the same
/// fault, and files with the same names.
pub fn alike_divisions_declare_alike()
    ensures { AlikeDivisionsDeclareAlike }
{}

/// The names with which a program is read are those of the files and entries that it then has.
pub fn programs_are_read_over_their_own_names()
    ensures { ProgramsAreReadOverTheirOwnNames }
{}
