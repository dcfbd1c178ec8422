//! A program that is read meets what is required so that its own parts may be written: each of its
//! files has a record, its entries can be written, and each of them has an item. The number of
//! paragraphs that GO TO DEPENDING names isn't treated here. Nothing here runs.

ghost use Rattle.end_to_end_laws.specs.read_programs.fit_reading.Laws.{EntriesThatAreReadFit, ProgramsThatAreReadHaveItems, ProgramsThatAreReadHaveRecords};

/// Each file of a program that is read has a record.
pub fn programs_that_are_read_have_records()
    ensures { ProgramsThatAreReadHaveRecords }
{}

/// In a program that is read no level 88 has a picture, and only a number with a sign has a
/// separate one.
pub fn entries_that_are_read_fit()
    ensures { EntriesThatAreReadFit }
{}

/// A program that is read has as many items as entries.
pub fn programs_that_are_read_have_items()
    ensures { ProgramsThatAreReadHaveItems }
{}
