//! Laws of flow paths and trails.

ghost use Rattle.program_points.specs.paths.Laws.{PathsAreLevels, AcceptedIsFaulty, FaultyHasTrail};

/// A free path comes to a point exactly where there are levels, each called by the one before, and
/// the last one comes there.
pub fn paths_are_levels()
    ensures { PathsAreLevels }
{}

/// A program that has an accepted trail is faulty.
pub fn accepted_is_faulty()
    ensures { AcceptedIsFaulty }
{}

/// A faulty program has an accepted trail, with no range twice among its lemmas or among its hops.
pub fn faulty_has_trail()
    ensures { FaultyHasTrail }
{}
