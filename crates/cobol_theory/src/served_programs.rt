//! A proper program that counts by whole numbers may be written, part by part: what the headline
//! for COBOL programs requires of the parts in its lowered graphs follows from the program itself
//! and from the items of its counters. Nothing here runs.

ghost use Rattle.cobol_theory.specs.served_programs.Laws.{ProperProgramsAreServed, ProperProgramsHaveServedGraphs};

/// Each part of a proper program that counts by whole numbers may be written in every range: the
/// items that it names are its own, and those by which it counts are whole wherever they are
/// stored. What its data rules and the limit of its text give in addition is a premise.
pub fn proper_programs_are_served()
    ensures { ProperProgramsAreServed }
{}

/// What is in the lowered graphs of such a program may be written, where their counters have
/// suitable items.
pub fn proper_programs_have_served_graphs()
    ensures { ProperProgramsHaveServedGraphs }
{}
