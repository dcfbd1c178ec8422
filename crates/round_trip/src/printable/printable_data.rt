//! What the divisions before the PROCEDURE DIVISION give of tokens that can be printed: files and
//! entries that can be printed. Nothing here runs.

ghost use Rattle.std.specs.Prelude.{◌≡◌, true};
ghost use Rattle.cobol_grammar.specs.data_forms.Divisions.{divisions};
ghost use Rattle.grammar_laws.specs.form_results.Giving.{Gives};
ghost use Rattle.round_trip.specs.printable.printable_tokens.Printable.{IsPrintable};
ghost use Rattle.round_trip.specs.printable.Part.{is_printable_place};
ghost use Rattle.round_trip.specs.printable.printable_data.Drafts.{ArePrintable};
ghost use Rattle.round_trip.specs.printable.printable_data.Laws.{EntriesArePrintable};

use cobol_grammar::data_forms::Refers;

/// Where tokens and status items can be printed, the names and values of the drafts that are read
/// can be.
pub fn divisions_print<R: Refers>()
    ensures { Gives IsPrintable R.status (λ place. is_printable_place place ≡ true) →
        Gives IsPrintable (divisions R.status) ArePrintable }
{}

/// What such drafts declare can be printed.
pub fn entries_are_printable()
    ensures { EntriesArePrintable }
{}
