//! What a form gives where no fault of a name is noted, and what literals give.
//!
//! `specs/form_results/Giving.antt` says what a form gives. Each maker of forms has its law in
//! `proofs/form_results_lemmas/Giving.antt`, with which the law of a grammar follows its forms.
//! Nothing here runs.

ghost use Rattle.grammar_laws.specs.form_results.Laws.{LiteralsGive};

/// Where the numbers of tokens are valid, those of literals are.
pub fn literals_give()
    ensures { LiteralsGive }
{}
