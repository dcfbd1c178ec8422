//! What divisions declare with no fault. These functions do nothing; their contracts are laws.

ghost use Rattle.std.specs.Prelude.{◌≡◌, ℕ, true};
ghost use Rattle.cob_tree.specs.declared.program.Program.{Program};
ghost use Rattle.cobol_grammar.specs.declared.data_forms.draft.Divisions.{Divisions};
ghost use Rattle.round_trip.specs.declarations.Laws.{Declares, DeclaredProgramsKeepRules, ReadBack};
ghost use Rattle.round_trip.specs.declarations.Named.{IsTitled, AreStated};
ghost use Rattle.grammar_laws.specs.well_scoped.named_data.Drafts.{data_literal};

use cobol_grammar::data_forms::Refers;

/// The files and entries of what divisions declare with no fault keep the rules.
pub fn declared_programs_keep_rules()
    ensures { DeclaredProgramsKeepRules }
{}

/// What is printed of a program that divisions declare with no fault spells drafts that declare the
/// same, where names are valid, values are literals, and status items are spelled by their tokens.
pub fn printed_declarations_read_back<R: Refers>()
    ensures { (taken : ℕ) (program : Program) (draft : Divisions) →
        data_literal draft.data_part ≡ true → Declares program draft → IsTitled program →
        AreStated R.status program program.files → ReadBack R.status taken program }
{}
