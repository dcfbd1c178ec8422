//! The numbers in the tokens of a text are valid: digits alone are 1 to 18, and a number has 1 to
//! 18 digits, and not more than these after the point. Nothing here runs.

ghost use Rattle.grammar_laws.specs.well_scoped.named_tokens.Laws.{TokensAreNumbered};

/// The numbers in the tokens of a text are valid.
pub fn tokens_are_numbered()
    ensures { TokensAreNumbered }
{}
