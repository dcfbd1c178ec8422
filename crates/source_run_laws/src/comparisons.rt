//! Calls of the whole tool that compare a program with what it is restructured to.

ghost use Rattle.source_run_laws.specs.Comparisons.{AskedResultsNeverDiffer};

use crate::faultless::faultless_programs_meet_no_fault;
use trace_compare::results_never_differ;

/// A call to compare a source with the text that it is restructured to never answers that they
/// differ, where the devices of both benches tell the same files.
pub fn asked_results_never_differ()
    ensures { AskedResultsNeverDiffer }
{
    faultless_programs_meet_no_fault();
    results_never_differ();
}
