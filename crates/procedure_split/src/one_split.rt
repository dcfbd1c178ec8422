//! A program is split in one way: into one structured program, or past one limit, and not both.
//! Nothing here runs.

ghost use Rattle.procedure_split.specs.one_split.Laws.{SplitsAreOne};

/// What a program without a fault is split into is one program; where it passes a limit instead, it
/// is one limit.
pub fn splits_are_one()
    ensures { SplitsAreOne }
{}
