//! Runs of structured programs, over devices whose files are known.

ghost use Rattle.structured_run_laws.specs.Runs.{NestedEndsAreReached, RunsShowNested};

/// A run of a structured program that stops, or comes to an abend, does so as its nested statements
/// do within some units: what it displayed and the files that it left are theirs. Whatever else it
/// comes to, they display all that it displayed. And where they stop, each run of steps enough
/// stops so, unless a device or the sink fails or memory runs out.
pub fn runs_show_nested_meanings()
    ensures shown { RunsShowNested }
    ensures reached { NestedEndsAreReached }
{}
