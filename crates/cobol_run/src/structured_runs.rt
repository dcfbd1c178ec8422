//! What a run of a structured program shows is what its nested statements show. Nothing here runs.

ghost use Rattle.cobol_run.specs.structured_runs.Shown.{RunsOverFilesShowNestedStatements, RunsShowNestedStatements};

use cobol_theory::cobol_meaning::a_structured_program_behaves_as_itself;

/// A run of a structured program that ends ends as its nested statements do, and shows what they
/// show; whatever else it comes to, they show all that it showed.
pub fn runs_show_nested_statements()
    ensures { RunsShowNestedStatements }
{
    a_structured_program_behaves_as_itself();
}

/// The same over devices whose files are known: at the end these are as the nested statements leave
/// them.
pub fn runs_over_files_show_nested_statements()
    ensures { RunsOverFilesShowNestedStatements }
{
    a_structured_program_behaves_as_itself();
}
