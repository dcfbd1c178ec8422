//! Entries that are whole numbers, and their names: what a name says about its item, such as
//! whether it is a number without decimal places, holds of the entry for which it stands.
//!
//! Nothing here runs.

ghost use Rattle.grammar_laws.specs.whole_counts.whole_entries.Laws.{NamesFitEntries, NumbersAreShort};

/// The names of entries fit them, where no number among these has more than 18 digits.
pub fn names_fit_entries()
    ensures { NamesFitEntries }
{}

/// No number that divisions declare has more than 18 digits.
pub fn numbers_are_short()
    ensures { NumbersAreShort }
{}
