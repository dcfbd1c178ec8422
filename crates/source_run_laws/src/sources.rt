//! Sources that are run.

ghost use Rattle.source_run_laws.specs.Sources.{PlainSourcesShowNested, ResultsShowNested, SourcesReachNestedEnds, SourcesShowNested};

use cobol_run::structured_runs::runs_show_nested_statements;
use structured_run_laws::runs::runs_show_nested_meanings;

/// What a source that is a structured program comes to as it is run is what its nested statements
/// mean; the text of what was restructured is such a source.
pub fn sources_show_nested_meanings()
    ensures shown { SourcesShowNested }
    ensures plain { PlainSourcesShowNested }
    ensures reached { SourcesReachNestedEnds }
    ensures results { ResultsShowNested }
{
    runs_show_nested_meanings();
    runs_show_nested_statements();
}
