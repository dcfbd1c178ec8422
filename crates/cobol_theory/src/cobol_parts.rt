//! The parts of COBOL programs meet what the theory of control requires of parts.
//!
//! `flow_facts_of` of `program_facts::completion` says what lowering knows of them: which
//! statements do nothing, how many arms a choice has, and which READ never comes to its first arm.
//! The laws say that this is true of the parts, as `cobol_meaning` has them. Nothing here runs: the
//! functions are laws.

ghost use Rattle.cobol_theory.specs.cobol_parts.Laws.{CobolChoosersGiveSomeArm, CobolPartsDoWhatIsTold, CobolProgramsAreSources};

/// CONTINUE and EXIT do nothing, and each choice gives one of its arms: the first of a READ only
/// where it has AT END or a status item.
pub fn cobol_parts_do_what_is_told()
    ensures { CobolPartsDoWhatIsTold }
{}

/// Each choice can give some arm.
pub fn cobol_choosers_give_some_arm()
    ensures { CobolChoosersGiveSomeArm }
{}

/// A program whose statements name items and paragraphs of its own alone, and whose inline loops
/// have a control, is a source.
pub fn cobol_programs_are_sources()
    ensures { CobolProgramsAreSources }
{}
