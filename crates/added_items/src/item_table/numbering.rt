//! The numbers of items, by the places of cells in the row of all cells.

ghost use Rattle.std.specs.Prelude.{◌≡◌, ◌<◌, length, IfOk};
ghost use Rattle.added_items.specs.item_table.Numbering.{IsWhole, IsNumbering, number_at};
ghost use Rattle.added_items.specs.item_table.Seen.{seen_ranges, cell_uses_of};

use crate::item_table::assignment::{ItemAssignment, assign_items, first_constant_cell, owner_of};
use crate::item_table::row::{ShapedRange, kinds_of_row, places_named};
use crate::mentions::CellUse;
use branch_tree::Added;
use cob_base::{Items, NoMemory};
use std::alloc::Global;

/// What the cells of the row are for, the first that never changes, and which have items.
#[derive(Drop)]
pub struct CellNumbering {
    pub kinds: Items<Added>,
    pub never: u32,
    pub holding: ItemAssignment,
}

/// The number of the item of the cell at this place.
pub fn number_at(numbering: &CellNumbering, place: u32) -> u32
    requires whole { IsWhole numbering.now }
    requires within { place < length numbering.now.kinds }
    ensures { result ≡ number_at numbering.now place }
{
    let held = owner_of(numbering.kinds.as_slice(), numbering.never, place);
    match numbering.holding.numbers[held as usize] {
        Some(number) => number,
        None => 0,
    }
}

/// The numbers of the items of these ranges' cells.
pub fn numbering_of(
    alloc: Global,
    ranges: &[ShapedRange<'_>],
    told: &[Items<CellUse>],
) -> Result<CellNumbering, NoMemory>
    requires { told.now ≡ cell_uses_of ranges.now }
    ensures { IfOk result (IsNumbering (seen_ranges ranges.now)) }
{
    let kinds = kinds_of_row(alloc, ranges)?;
    if kinds.len() >= u32::MAX as usize {
        return Err(NoMemory);
    }
    let never = first_constant_cell(kinds.as_slice()) as u32;
    let places = places_named(alloc, ranges, told, kinds.len() as u32)?;
    let holding = assign_items(alloc, kinds.as_slice(), never, places.as_slice())?;
    Ok(CellNumbering {
        kinds,
        never,
        holding,
    })
}
