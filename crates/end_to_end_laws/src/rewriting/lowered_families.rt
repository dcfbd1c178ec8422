//! The graphs that the ranges of a program are lowered to are a sound family in the order of its
//! plan, where the program has no fault of flow. Nothing here runs.

ghost use Rattle.end_to_end_laws.specs.rewriting.lowered_families.Laws.{LoweredGraphsAreSound, SplitGraphsAreSound};

/// The lowered graphs of a program that is read and has no fault of flow are a sound family, however
/// large they are; so are those from which it is split.
pub fn lowered_graphs_are_sound<Left>()
    ensures lowered { LoweredGraphsAreSound Left }
    ensures split { SplitGraphsAreSound Left }
{}
