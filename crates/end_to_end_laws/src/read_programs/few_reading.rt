//! Lists of names are short in a program that is read: a source has no more tokens than the limit
//! on these, and each name of a GO TO DEPENDING takes one. Nothing here runs.

ghost use Rattle.end_to_end_laws.specs.read_programs.few_reading.Laws.{ProgramsThatAreReadNameFew};

/// Each GO TO DEPENDING of a program that is read names fewer than 10^18 paragraphs.
pub fn programs_that_are_read_name_few()
    ensures { ProgramsThatAreReadNameFew }
{}
