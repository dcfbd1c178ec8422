//! What holds of references and expressions. These functions do nothing; their contracts are laws.

ghost use Rattle.cobol_grammar.specs.expr_forms.Laws.{ExpressionsAreRead, ParenthesesOnlyAdd};

/// References, operands and expressions each read what they spell and nothing else, and stop at the
/// first token up to which the tokens aren't cut.
pub fn expressions_are_read()
    ensures { ExpressionsAreRead }
{}

/// More levels of parentheses change neither what is read nor a fault of another kind, and go on
/// after the parenthesis that was one too many.
pub fn parentheses_only_add()
    ensures { ParenthesesOnlyAdd }
{}
