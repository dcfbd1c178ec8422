//! Files, records and status items as they are read, and what a program that is read declares, in
//! the form that what is printed of it needs. Nothing here runs.

ghost use Rattle.std.specs.Prelude.{ℕ, List};
ghost use Rattle.cob_tree.specs.declared.program.Program.{Program};
ghost use Rattle.cobol_read.specs.Reading.{Reads};
ghost use Rattle.round_trip.specs.declarations.Laws.{ReadBack};
ghost use Rattle.round_trip.specs.declarations.Named.{AreStated};
ghost use Rattle.end_to_end_laws.specs.read_programs.readable_parts.Laws.{FitStatusesAreStated, NamesAreReadable, ProgramsThatAreReadAreStated, ProgramsThatAreReadAreTitled, ProgramsThatAreReadHaveFitStatuses, ProgramsThatAreReadKeepRules};

use cobol_grammar::data_forms::Refers;

/// Files and records that are read are found by their names where they are printed, and status
/// items are spelled.
pub fn names_are_readable()
    ensures { NamesAreReadable }
{}

/// The names of a program that is read are valid names, and its values are literals.
pub fn programs_that_are_read_are_titled()
    ensures { ProgramsThatAreReadAreTitled }
{}

/// The files and entries of a program that is read keep the rules.
pub fn programs_that_are_read_keep_rules()
    ensures { ProgramsThatAreReadKeepRules }
{}

/// The status items of a program that is read fit, where references do.
pub fn programs_that_are_read_have_fit_statuses()
    ensures { ProgramsThatAreReadHaveFitStatuses }
{}

/// Status items that fit are spelled, whatever the program.
pub fn fit_statuses_are_stated()
    ensures { FitStatusesAreStated }
{}

/// The status items of a program that is read are spelled.
pub fn programs_that_are_read_are_stated()
    ensures { ProgramsThatAreReadAreStated }
{}

/// What is printed of the divisions of a program that is read declares the same, whatever form
/// spells its status items.
pub fn declarations_that_are_read_read_back<R: Refers>()
    ensures { (taken : ℕ) (bytes : List ℕ) (program : Program) → Reads bytes program →
        AreStated R.status program program.files → ReadBack R.status taken program }
{}
