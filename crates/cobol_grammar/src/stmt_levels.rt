//! How the limit on nested statements changes what is read.
//!
//! `levels_only_add` holds for the statements of `stmt_forms` over any lawful forms of operands,
//! references, conditions and names. The crate has no code that reads.

ghost use Rattle.std.specs.Prelude.{ℕ, ◌≤◌};
ghost use Rattle.parser_combinators.specs.declared.why.Why.TheVariants.{Nesting};
ghost use Rattle.parser_combinators.specs.Reading.{OnlyAdds, count_of};
ghost use Rattle.cobol_grammar.specs.declared.stmt_forms.scope.Scope.{Scope};
ghost use Rattle.cobol_grammar.specs.stmt_forms.Laws.{PartsAreLawful};
ghost use Rattle.cobol_grammar.specs.stmt_forms.Stmt.{stmts};

use crate::stmt_forms::Made;

/// With more levels statements are read as with fewer, and stop as they do or, where they stopped
/// because they are nested too deep, at that token or after it. So the token that is reported is
/// the first one past the limit.
pub fn levels_only_add<Side, Known, M: Made<Side, Known>>()
    ensures { PartsAreLawful M.parts → (m n : ℕ) → m ≤ n → (scope : Scope) →
        OnlyAdds (count_of Nesting) (stmts M.parts m scope) (stmts M.parts n scope) }
{}
