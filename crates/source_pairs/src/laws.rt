//! What holds of two programs from one source. This function does nothing; its contract is a law.

ghost use Rattle.source_pairs.specs.Laws.{CutsAreOne, PairsAreReadOneWay};

/// A source is cut at one place at most, and is at most two programs, and either two programs or
/// refused for exactly one cause.
pub fn pairs_are_read_one_way()
    ensures cuts { CutsAreOne }
    ensures pairs { PairsAreReadOneWay }
{}
