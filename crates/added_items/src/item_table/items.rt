//! Items for the cells of shaped ranges.

ghost use Rattle.std.specs.Prelude.{◌≡◌, map, IfOk};
ghost use Rattle.added_items.specs.item_table.CellItem.{AreCellItems};
ghost use Rattle.added_items.specs.item_table.Owners.{item_kinds};
ghost use Rattle.added_items.specs.item_table.Naming.{entries_for, item_kind, seen_item};
ghost use Rattle.added_items.specs.item_table.Seen.{seen_ranges};

use crate::item_table::cell_item::all_items;
use crate::item_table::naming::{AddedItem, items_at};
use crate::item_table::numbering::numbering_of;
use crate::item_table::row::{ShapedRange, cell_uses_of};
use cob_base::{Items, NoMemory};
use cob_words::WordTable;
use statement_builders::item_words::CellItem;
use std::alloc::Global;

/// The items of cells, and what writing needs to know of the cells of each range.
#[derive(Drop)]
pub struct AssignedItems {
    pub added: Items<AddedItem>,
    pub cells: Items<Items<CellItem>>,
}

/// Gives items to the cells of these ranges, which are in this order: their names aren't words of
/// the table, and their numbers go on from `first`. Err where memory runs out, where 32 bits don't
/// suffice to number the cells, where an item would be 2^31 or more, and where a statement of the
/// program has a word on an added item.
pub fn give_items(
    alloc: Global,
    words: &WordTable,
    first: u32,
    ranges: &[ShapedRange<'_>],
) -> Result<AssignedItems, NoMemory>
    ensures entries { IfOk result (λ given. map seen_item given.added
        ≡ entries_for words.now (seen_ranges ranges.now)) }
    ensures kinds { IfOk result (λ given. map item_kind given.added
        ≡ item_kinds (seen_ranges ranges.now)) }
    ensures cells { IfOk result (λ given.
        AreCellItems first (seen_ranges ranges.now) given.cells) }
{
    let told = cell_uses_of(alloc, ranges)?;
    let numbering = numbering_of(alloc, ranges, told.as_slice())?;
    let kinds = numbering.kinds.as_slice();
    let added = items_at(alloc, words, kinds, numbering.holding.held.as_slice())?;
    let cells = all_items(alloc, &numbering, first, ranges, told.as_slice())?;
    Ok(AssignedItems { added, cells })
}
