//! What holds of the forms. This function does nothing; its contract is a law.

ghost use Rattle.parser_combinators.specs.words.Laws.{WordsAreRead};

/// Names, words and literals are read as they are spelled, and reading stops at the first token up
/// to which the tokens aren't cut.
pub fn words_are_read()
    ensures { WordsAreRead }
{}
