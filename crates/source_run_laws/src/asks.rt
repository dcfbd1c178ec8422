//! Calls of the whole tool that run a source.

ghost use Rattle.source_run_laws.specs.Asks.{AskedResultsShowNested, AskedRunsShowNested};

use crate::sources::sources_show_nested_meanings;

/// How a call to run a structured program ends tells what its nested statements mean; so does each
/// call to run what was restructured.
pub fn asked_runs_show_nested_meanings()
    ensures shown { AskedRunsShowNested }
    ensures results { AskedResultsShowNested }
{
    sources_show_nested_meanings();
}
