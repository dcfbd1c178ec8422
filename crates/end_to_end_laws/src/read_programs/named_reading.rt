//! A program that is read names items and files that it declares and paragraphs that it has, its
//! numbers are valid, and no list that is required is empty. Nothing here runs.

ghost use Rattle.end_to_end_laws.specs.read_programs.named_reading.Laws.{ProgramsThatAreReadAreNamed};

/// A program that is read has a paragraph and no more entries than a text may have tokens, and each
/// item, file and paragraph that it names is one of its own.
pub fn programs_that_are_read_are_named()
    ensures { ProgramsThatAreReadAreNamed }
{}
