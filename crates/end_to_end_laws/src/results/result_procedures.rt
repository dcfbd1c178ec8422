//! The procedures of a split program: their names are valid and all different, so that each is
//! found by its label; its sentences are in scope, and where they fit, they are spelled by what is
//! printed of them. Nothing here runs.

ghost use Rattle.end_to_end_laws.specs.results.result_procedures.Laws.{
  FitProgramsAreSpelled,
  FitResultsAreSpelled,
  NestedStatementsAreInScope,
  ProcedureNamesArePrintable,
  ProcedureNamesAreTitles,
  ProgramsThatAreReadHaveProcedures,
  SplitProgramsHaveProcedures,
  StructuredProceduresAreRanges,
  StructuredSentencesFit,
  WrittenSentencesAreFilled,
};

use round_trip::fitting_statements::own_fits::own_fits_spell;

/// The procedures of a program that is read are distinguished by their headers, and all have names
/// of their own.
pub fn programs_that_are_read_have_procedures()
    ensures { ProgramsThatAreReadHaveProcedures }
{}

/// The names of the result's procedures are valid and all different, where those of the program's
/// own are.
pub fn procedure_names_are_titles()
    ensures { ProcedureNamesAreTitles }
{}

/// The names of the result's procedures can be printed, where those of the program can.
pub fn procedure_names_are_printable()
    ensures { ProcedureNamesArePrintable }
{}

/// The paragraphs of a split program are distinguished by their headers.
pub fn split_programs_have_procedures()
    ensures { SplitProgramsHaveProcedures }
{}

/// In a structured program each paragraph by itself is named by its label.
pub fn structured_procedures_are_ranges()
    ensures { StructuredProceduresAreRanges }
{}

/// Statements without a jump are in scope anywhere.
pub fn nested_statements_are_in_scope()
    ensures { NestedStatementsAreInScope }
{}

/// Each sentence that is written of a procedure has a statement.
pub fn written_sentences_are_filled()
    ensures { WrittenSentencesAreFilled }
{}

/// The sentences of a structured program fit, where each has a statement, all statements pass the
/// tests, and none nests too deep.
pub fn structured_sentences_fit()
    ensures { StructuredSentencesFit }
{}

/// A program whose procedures are distinguished is spelled by what is printed of it, where its
/// sentences fit, and what fits is spelled.
pub fn fit_programs_are_spelled()
    ensures { FitProgramsAreSpelled }
{}

/// What a program is split into is spelled by what is printed of it, where the procedures of the
/// program have names of their own, and the statements of the result pass the tests by its own
/// names.
pub fn fit_results_are_spelled()
    ensures { FitResultsAreSpelled }
{
    own_fits_spell();
}
