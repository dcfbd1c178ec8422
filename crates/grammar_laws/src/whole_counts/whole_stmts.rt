//! Statements count by whole numbers, over open forms of operands: where no fault of a name is
//! noted, the operand of each TIMES and the item of each GO TO DEPENDING are whole numbers.
//!
//! `specs/whole_counts/whole_stmts/Parts.antt` says what the open forms have to give. Nothing here
//! runs.

ghost use Rattle.std.specs.Prelude.{◌≡◌, true, List};
ghost use Rattle.cob_tree.specs.declared.entry.Entry.{Entry};
ghost use Rattle.grammar_laws.specs.form_results.Giving.{Gives};
ghost use Rattle.grammar_laws.specs.form_results.Numbered.{IsNumbered};
ghost use Rattle.cobol_grammar.specs.stmt_forms.Laws.{PartsAreLawful};
ghost use Rattle.cobol_grammar.specs.stmt_forms.Paragraph.{division};
ghost use Rattle.grammar_laws.specs.whole_counts.whole_stmts.Paragraph.{paragraphs_count_whole};
ghost use Rattle.grammar_laws.specs.whole_counts.whole_stmts.Parts.{PartsCountWhole};

use cobol_grammar::stmt_forms::Made;

/// Where the parts of statements give whole numbers wherever no fault is found in them as such, and
/// no fault is noted, the statements of the division count by whole numbers.
pub fn statements_count_whole<Side, Known, M: Made<Side, Known>>()
    ensures { (entries : List Entry) → PartsAreLawful M.parts → PartsCountWhole entries M.parts →
        Gives IsNumbered (division M.parts)
        (λ found. paragraphs_count_whole entries found ≡ true) }
{}
