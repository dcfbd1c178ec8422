//! What a program is split into is split into itself.

ghost use Rattle.fixed_point_laws.specs.Splitting.{SplitsComeAgain, SplitsKeepControl};

/// What a program is split into has, split once more, the control that it has: it is split into
/// itself, and nothing is added.
pub fn splits_come_again()
    ensures control { SplitsKeepControl }
    ensures again { SplitsComeAgain }
{}
