//! Programs whose flow has no fault, as they run.

ghost use Rattle.source_run_laws.specs.Faultless.{FaultlessRunsEndFairly};

/// A program that is read and no flow path of which comes to a fault meets none as it runs: over all
/// files it goes on, or stops.
pub fn faultless_programs_meet_no_fault()
    ensures { FaultlessRunsEndFairly }
{}
