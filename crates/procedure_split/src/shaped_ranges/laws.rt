//! What holds of the graphs of a program's ranges.

ghost use Rattle.procedure_split.specs.shaped_ranges.Laws.{RangesArePlanned};

/// With such graphs a COBOL program that isn't faulty has a plan as the headline requires.
pub fn ranges_are_planned()
    ensures { RangesArePlanned }
{}
