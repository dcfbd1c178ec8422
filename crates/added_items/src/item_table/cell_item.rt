//! What writing needs to know of the cells of a range.

ghost use Rattle.std.specs.Prelude.{◌≡◌, ◌+◌, ◌<◌, ◌≤◌, ◌^◌, length, map, IfOk};
ghost use Rattle.branch_tree.specs.Graph.{seen_added};
ghost use Rattle.added_items.specs.mentions.CellUse.{first_arms};
ghost use Rattle.added_items.specs.item_table.CellItem.{IsAsked, AreAsked, AreAllAsked};
ghost use Rattle.added_items.specs.item_table.Owners.{kind_in};
ghost use Rattle.added_items.specs.item_table.Numbering.{IsWhole, number_at};
ghost use Rattle.added_items.specs.item_table.Row.{kinds_of_row};
ghost use Rattle.added_items.specs.item_table.Seen.{seen_ranges, cell_uses_of};
ghost use Rattle.added_items.specs.item_table.Tables.{ends_in_other, few_arms, most_by};

use crate::item_table::assignment::kind_in;
use crate::item_table::choices::first_choices;
use crate::item_table::numbering::{CellNumbering, number_at};
use crate::item_table::row::ShapedRange;
use crate::mentions::CellUse;
use branch_tree::Added;
use cob_base::{Items, NoMemory};
use statement_builders::item_words::CellItem;
use std::alloc::Global;

/// The number of arms, or the largest number that an item can hold.
fn few_arms(arms: Option<usize>) -> u32
    ensures { result ≡ few_arms arms }
{
    match arms {
        None => 0,
        Some(arms) => if arms < 999_999 { arms as u32 } else { 999_999 },
    }
}

fn most_by(arms: Option<usize>, kind: Added) -> u32
    ensures { result ≡ most_by arms (seen_added kind) }
{
    match kind {
        Added::Never => 1,
        Added::Flag => 1,
        Added::Count => 0,
        Added::State => few_arms(arms),
        Added::Exit => few_arms(arms),
    }
}

fn ends_in_other(kind: Added) -> bool
    ensures { result ≡ ends_in_other (seen_added kind) }
{
    match kind {
        Added::Never => false,
        Added::Flag => false,
        Added::Count => false,
        Added::State => false,
        Added::Exit => true,
    }
}

/// The item with this number after the program's own.
fn item_behind(first: u32, number: u32) -> Result<u32, NoMemory>
    ensures { IfOk result (λ item. (item ≡ first + number) × (item < 2 ^ 31)) }
{
    if first as u64 + number as u64 >= 1 << 31 {
        return Err(NoMemory);
    }
    Ok(first + number)
}

/// What writing needs to know of the cell at this place.
fn cell_item(
    numbering: &CellNumbering,
    first: u32,
    place: u32,
    arms: Option<usize>,
    kind: Added,
) -> Result<CellItem, NoMemory>
    requires whole { IsWhole numbering.now }
    requires within { place < length numbering.now.kinds }
    ensures { IfOk result (IsAsked (first + number_at numbering.now place)
        (most_by arms (seen_added kind)) (ends_in_other (seen_added kind))) }
{
    let item = item_behind(first, number_at(numbering, place))?;
    Ok(CellItem {
        item,
        most: most_by(arms, kind),
        ends_in_other: ends_in_other(kind),
    })
}

/// What writing needs to know of each cell of a range, before whose cells there are so many.
fn range_items(
    alloc: Global,
    numbering: &CellNumbering,
    first: u32,
    before: usize,
    added: &[Added],
    told: &[CellUse],
) -> Result<Items<CellItem>, NoMemory>
    requires whole { IsWhole numbering.now }
    requires within { before + length added.now ≤ length numbering.now.kinds }
    ensures { IfOk result (AreAsked (number_at numbering.now) first before
        (map seen_added added.now) (λ cell. first_arms cell told.now)) }
{
    let arms = first_choices(alloc, told, added.len())?;
    let mut items = Items::new(alloc);
    for cell in 0..added.len() {
        let place = (before + cell) as u32;
        let kind = kind_in(added, cell as u32);
        items.push(cell_item(numbering, first, place, arms[cell], kind)?)?;
    }
    Ok(items)
}

/// What writing needs to know of the cells of each range.
pub fn all_items(
    alloc: Global,
    numbering: &CellNumbering,
    first: u32,
    ranges: &[ShapedRange<'_>],
    told: &[Items<CellUse>],
) -> Result<Items<Items<CellItem>>, NoMemory>
    requires whole { IsWhole numbering.now }
    requires row { map seen_added numbering.now.kinds ≡ kinds_of_row (seen_ranges ranges.now) }
    requires told { told.now ≡ cell_uses_of ranges.now }
    ensures { IfOk result (AreAllAsked (number_at numbering.now) first (seen_ranges ranges.now)) }
{
    let mut lists = Items::new(alloc);
    let mut before = 0usize;
    for at in 0..ranges.len() {
        let added = ranges[at].added;
        lists.push(range_items(alloc, numbering, first, before, added, told[at].as_slice())?)?;
        before += added.len();
    }
    Ok(lists)
}
