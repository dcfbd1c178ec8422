//! What the divisions before the PROCEDURE DIVISION give, over an open form of status items: where
//! no fault of a name is noted, each status item is named, and each value of an entry is a literal.
//!
//! Nothing here runs.

ghost use Rattle.std.specs.Prelude.{◌≡◌, true};
ghost use Rattle.cobol_grammar.specs.data_forms.Divisions.{divisions};
ghost use Rattle.grammar_laws.specs.form_results.Giving.{Gives};
ghost use Rattle.grammar_laws.specs.form_results.Numbered.{IsNumbered};
ghost use Rattle.program_facts.specs.well_scoped.Part.{Counts, place_named};
ghost use Rattle.grammar_laws.specs.well_scoped.named_data.Drafts.{DivisionsNamed};

use cobol_grammar::data_forms::Refers;

/// Where status items are named, so are those of the divisions, and the values of their entries are
/// literals.
pub fn divisions_give<R: Refers>()
    ensures { (counts : Counts) →
        Gives IsNumbered R.status (λ place. place_named counts place ≡ true) →
        Gives IsNumbered (divisions R.status) (DivisionsNamed counts) }
{}
