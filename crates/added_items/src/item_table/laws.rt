//! Laws of the table of cells.

ghost use Rattle.added_items.specs.item_table.Laws.{CellsHaveEntries, ClosedCellsAreServed};

/// Each cell of the ranges has one of the entries, with room for its values, and each that changes
/// shares it with no other.
pub fn cells_have_entries()
    ensures { CellsHaveEntries }
{}

/// What the rules do with the cells of closed graphs can be written with their table, where each
/// graph has fewer than 999,999 nodes.
pub fn closed_cells_are_served()
    ensures { ClosedCellsAreServed }
{}
