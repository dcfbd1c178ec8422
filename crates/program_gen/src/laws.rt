//! Laws of the generated programs.

ghost use Rattle.program_gen.specs.Laws.{FirstGroupsJumps, GeneratedProgramsAreFaultless, GeneratedProgramsNameFew};

/// In the generated program of 1 the first two paragraphs of the group go to its third, and the
/// third to its second.
pub fn first_group_goes_to_its_third_third_and_second()
    ensures { FirstGroupsJumps }
{}

/// No flow path of a generated program comes to a fault: only its first paragraph performs, and
/// nothing leads to that one. Each names no more ranges than their limit.
pub fn generated_programs_are_faultless()
    ensures never { GeneratedProgramsAreFaultless }
    ensures few { GeneratedProgramsNameFew }
{}
