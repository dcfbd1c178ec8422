//! The names that COBOL parts have in a result stay the same when it is restructured again.

ghost use Rattle.fixed_point_laws.specs.Names.{ChoosersComeAgain, PartsKeepNames, ReadsAreAlike, WhatActsIsWrittenSo};

/// The parts of COBOL keep their names; a written READ never gives its first arm only where the
/// source's doesn't; what does something is written so; and choosers are written as themselves.
pub fn names_come_again()
    ensures parts { PartsKeepNames }
    ensures reads { ReadsAreAlike }
    ensures acts { WhatActsIsWrittenSo }
    ensures choosers { ChoosersComeAgain }
{}
