//! Splitting a result passes no limit.

ghost use Rattle.fixed_point_laws.specs.Limits.{SplitsPassNoLimit};

/// What a program is split into, printed as no more tokens than a text may have, passes no limit
/// when it is split once more: neither that on labels and statements nor that on nesting.
pub fn splits_pass_no_limit()
    ensures { SplitsPassNoLimit }
{}
