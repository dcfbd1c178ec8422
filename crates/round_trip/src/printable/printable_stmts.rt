//! Statements and paragraphs that are read from tokens that can be printed can be printed, over
//! open forms of operands and conditions. Nothing here runs.

ghost use Rattle.grammar_laws.specs.form_results.Giving.{Each, Gives};
ghost use Rattle.round_trip.specs.printable.Whole.{IsPrintableParagraph};
ghost use Rattle.round_trip.specs.printable.printable_stmts.Printable.{PartsPrint};
ghost use Rattle.round_trip.specs.printable.printable_tokens.Printable.{IsPrintable};
ghost use Rattle.cobol_grammar.specs.stmt_forms.Laws.{PartsAreLawful};
ghost use Rattle.cobol_grammar.specs.stmt_forms.Paragraph.{division};

use cobol_grammar::stmt_forms::Made;

/// Where the parts of statements give what can be printed, and no fault is noted, the paragraphs
/// that are read can be printed.
pub fn divisions_are_printable<Side, Known, M: Made<Side, Known>>()
    ensures { PartsAreLawful M.parts → PartsPrint M.parts →
        Gives IsPrintable (division M.parts) (λ found. Each IsPrintableParagraph found) }
{}
