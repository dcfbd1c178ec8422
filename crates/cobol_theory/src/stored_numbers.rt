//! What a number item stores is read back from its bytes (ISO 1989:1985, SIGN clause). Nothing here
//! runs: the function is a law.

ghost use Rattle.cobol_theory.specs.stored_numbers.Laws.{StoredNumbersAreReadBack};

/// The bytes of a number in an item of 1 to 18 digits that has room for it, and a sign where the
/// number is below zero, are read as that number.
pub fn stored_numbers_are_read_back()
    ensures { StoredNumbersAreReadBack }
{}
