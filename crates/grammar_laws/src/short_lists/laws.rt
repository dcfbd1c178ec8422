//! How many paragraphs statements name. This function does nothing; its contract is a law.

ghost use Rattle.std.specs.Prelude.{ℕ, ◌≡◌, ◌<◌, ◌^◌, true};
ghost use Rattle.grammar_laws.specs.short_lists.Giving.{GivesOfFew};
ghost use Rattle.grammar_laws.specs.short_lists.Paragraph.{paragraphs_name_few};
ghost use Rattle.cobol_grammar.specs.stmt_forms.Laws.{PartsAreLawful};
ghost use Rattle.cobol_grammar.specs.stmt_forms.Paragraph.{division};

use cobol_grammar::stmt_forms::Made;

/// Where the tokens that are left can be counted with 18 digits, each GO TO DEPENDING of a division
/// that is read of them names fewer than 10^18 paragraphs.
pub fn statements_name_few<Side, Known, M: Made<Side, Known>>()
    ensures { (bound : ℕ) → bound < 10 ^ 18 → PartsAreLawful M.parts →
        GivesOfFew bound (division M.parts) (λ found. paragraphs_name_few found ≡ true) }
{}
