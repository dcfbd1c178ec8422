//! What a program without a fault is split into is structured, as the tests on the tree have it: it
//! holds no EXIT either.
//!
//! Lowering leaves out an EXIT that is alone in its sentence, and no other is written. Nothing here
//! runs: the function is a law.

ghost use Rattle.procedure_split.specs.split_form.Laws.{SplitProgramsAreStructured};

/// What a program without a fault, in which each EXIT is alone in its sentence, is split into is a
/// structured program: procedures with names, in no section, of one sentence without a jump or an
/// EXIT, each but the first performed from an earlier one, and STOP RUN last in the first.
pub fn split_programs_are_structured()
    ensures { SplitProgramsAreStructured }
{}
