//! What statements, paragraphs and the whole PROCEDURE DIVISION give, over open forms of operands
//! and conditions: where no fault of a name is noted, each item, file and paragraph that they name
//! is there, and no list that is required is empty.
//!
//! `specs/well_scoped/named_stmts/Parts.antt` says what the open forms have to give. Nothing here
//! runs.

ghost use Rattle.std.specs.Prelude.{◌≡◌, true};
ghost use Rattle.grammar_laws.specs.form_results.Giving.{Gives};
ghost use Rattle.grammar_laws.specs.form_results.Numbered.{IsNumbered};
ghost use Rattle.program_facts.specs.well_scoped.Named.{paragraphs_named};
ghost use Rattle.program_facts.specs.well_scoped.Part.{Counts, is_filled};
ghost use Rattle.grammar_laws.specs.well_scoped.named_stmts.Parts.{PartsGive};
ghost use Rattle.cobol_grammar.specs.stmt_forms.Laws.{PartsAreLawful};
ghost use Rattle.cobol_grammar.specs.stmt_forms.Paragraph.{division};

use cobol_grammar::stmt_forms::Made;

/// Where the parts of statements give what they have to, and no fault is noted, the division has a
/// paragraph, and its statements are named.
pub fn statements_give<Side, Known, M: Made<Side, Known>>()
    ensures { (counts : Counts) → PartsAreLawful M.parts → PartsGive counts M.parts →
        Gives IsNumbered (division M.parts) (λ found. (is_filled found ≡ true)
        × (paragraphs_named counts found ≡ true)) }
{}
