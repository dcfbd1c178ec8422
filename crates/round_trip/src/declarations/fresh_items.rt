//! Items may be added to a program, where their names are stems with the next numbers that make no
//! word of the program. Nothing here runs.

ghost use Rattle.round_trip.specs.declarations.fresh_items.Laws.{FreshItemsMayBeAdded};

/// The names of such items are valid and all different, and none is a word of the program.
pub fn fresh_items_may_be_added()
    ensures { FreshItemsMayBeAdded }
{}
