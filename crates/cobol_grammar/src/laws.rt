//! What holds of the closed grammar. These functions do nothing; their contracts are laws.

ghost use Rattle.cobol_grammar.specs.Laws.{GrammarIsRead, SubjectsAreCompared};

/// Statements, nested to any level, and the whole division read what they spell and nothing else,
/// and stop at the first token up to which the tokens aren't cut.
pub fn grammar_is_read()
    ensures { GrammarIsRead }
{}

/// A subject of EVALUATE is compared as the sides of a relation are, except that two literals may
/// be compared there.
pub fn subjects_are_compared()
    ensures { SubjectsAreCompared }
{}
