//! What restructuring a result adds: nothing.

ghost use Rattle.fixed_point_laws.specs.Adding.{LoneNodesCountNothing, RangesWithoutCellsAddNothing};

/// A graph of one node that jumps nowhere has no counter, and ranges without cells have no items.
pub fn nothing_is_added()
    ensures counters { LoneNodesCountNothing }
    ensures items { RangesWithoutCellsAddNothing }
{}
