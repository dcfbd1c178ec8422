//! EXIT without a further word is alone in the sentences that are read, over open forms of
//! operands. Nothing here runs.

ghost use Rattle.std.specs.Prelude.{ℕ, ◌≡◌, true};
ghost use Rattle.grammar_laws.specs.short_lists.Giving.{GivesOfFew};
ghost use Rattle.grammar_laws.specs.short_lists.lone_exits.Alone.{paragraphs_exit_alone};
ghost use Rattle.cobol_grammar.specs.stmt_forms.Laws.{PartsAreLawful};
ghost use Rattle.cobol_grammar.specs.stmt_forms.Paragraph.{division};

use cobol_grammar::stmt_forms::Made;

/// In a division that is read EXIT without a further word is alone in its sentences.
pub fn exits_stand_alone<Side, Known, M: Made<Side, Known>>()
    ensures { (bound : ℕ) → PartsAreLawful M.parts →
        GivesOfFew bound (division M.parts) (λ found. paragraphs_exit_alone found ≡ true) }
{}
