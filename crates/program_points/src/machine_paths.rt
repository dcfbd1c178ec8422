//! Flow paths here and in the theory of control are the same.
//!
//! The theory's flow paths are runs of the source machine in which given ways take the place of
//! data; those of `program_points::paths` are steps between finitely many points, which code can
//! number. There is no code here: each function states a law.

ghost use Rattle.program_points.specs.machine_paths.Laws.{FaultyIsTheTheorys, LevelsAreTheTheorys};

/// A level comes to a paragraph and a rest in the theory exactly where it comes to their point
/// here.
pub fn levels_are_the_theorys()
    ensures { LevelsAreTheTheorys }
{}

/// A program is faulty in the theory exactly where it is here.
pub fn faulty_is_the_theorys()
    ensures { FaultyIsTheTheorys }
{}
