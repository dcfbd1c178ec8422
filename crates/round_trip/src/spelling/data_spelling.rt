//! What a program prints before its PROCEDURE DIVISION spells, by the grammar, drafts that say of
//! its files and entries what these are. Nothing here runs.

ghost use Rattle.std.specs.Prelude.{ℕ, List};
ghost use Rattle.cob_tree.specs.declared.entry.Entry.{Entry};
ghost use Rattle.cob_tree.specs.declared.program.Program.{Program};
ghost use Rattle.cobol_grammar.specs.data_forms.Divisions.{divisions};
ghost use Rattle.round_trip.specs.spelling.data_spelling.Drafts.{AreDivisions};
ghost use Rattle.round_trip.specs.spelling.data_spelling.Kinds.{divisions_kinds};
ghost use Rattle.round_trip.specs.spelling.data_spelling.Laws.{DivisionsHaveTokens};
ghost use Rattle.round_trip.specs.spelling.data_spelling.Printable.{BeforeProcedures, IsPrintable};
ghost use Rattle.round_trip.specs.spelling.data_spelling.Sections.{Fd};
ghost use Rattle.round_trip.specs.spelled_forms.Spelling.{Spelled};

use cobol_grammar::data_forms::Refers;

/// The tokens with which a program is printed are those of its divisions up to the PROCEDURE
/// DIVISION, and then those of that division.
pub fn divisions_have_tokens()
    ensures { DivisionsHaveTokens }
{}

/// The tokens of the divisions before the PROCEDURE DIVISION spell drafts that say of the program's
/// files and entries what these are.
pub fn printed_divisions_are_spelled<R: Refers>()
    ensures { (taken : ℕ) (program : Program) (fds : List Fd) (storage : List Entry) →
        IsPrintable R.status program fds storage →
        Spelled (divisions R.status) taken (divisions_kinds program fds storage) BeforeProcedures
        (AreDivisions program fds storage) }
{}
