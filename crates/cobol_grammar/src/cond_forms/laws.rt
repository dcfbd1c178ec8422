//! What holds of conditions. These functions do nothing; their contracts are laws.

ghost use Rattle.cobol_grammar.specs.cond_forms.Laws.{ConditionsAreRead, LevelsOnlyAdd};

/// Conditions read what they spell and nothing else, and stop at the first token up to which the
/// tokens aren't cut.
pub fn conditions_are_read()
    ensures { ConditionsAreRead }
{}

/// More levels of parentheses change neither what is read nor a fault of another kind, and go on
/// after the parenthesis that was one too many.
pub fn levels_only_add()
    ensures { LevelsOnlyAdd }
{}
