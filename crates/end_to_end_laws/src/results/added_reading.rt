//! With items of whole numbers after its own entries, a program that is read keeps the properties
//! by which its divisions are read back. Nothing here runs.

ghost use Rattle.end_to_end_laws.specs.results.added_reading.Laws.{ProgramsThatAreReadHaveFewWords, ProgramsWithItemsDeclareReadably};

/// A program that is read has no more words than its limits allow.
pub fn programs_that_are_read_have_few_words()
    ensures { ProgramsThatAreReadHaveFewWords }
{}

/// With items that may be added, a program that is read has valid names, its files and entries keep
/// the rules, and its status items are spelled.
pub fn programs_with_items_declare_readably()
    ensures { ProgramsWithItemsDeclareReadably }
{}
