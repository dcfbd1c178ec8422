//! The cells of shaped ranges in one row.

ghost use Rattle.std.specs.Prelude.{◌≡◌, ◌++◌, ◌+◌, ◌<◌, ◌^◌, length, map, IfOk, OnOk};
ghost use Rattle.cob_base.specs.Answers.{Makes};
ghost use Rattle.branch_tree.specs.Graph.{seen_added};
ghost use Rattle.added_items.specs.item_table.Owners.{counted_on};
ghost use Rattle.added_items.specs.item_table.Row.{kinds_of_row, in_row, named_behind};
ghost use Rattle.added_items.specs.item_table.Seen.{seen_ranges, cells_of, cell_uses_of};

use crate::mentions::{CellUse, cell_uses};
use branch_tree::{Added, Piece};
use cob_base::{Items, NoMemory};
use cob_tree::Range;
use std::alloc::Global;
use std::collections::VecDeque;

/// A range that was shaped: its body, and what its cells are for.
#[derive(Clone, Copy)]
pub struct ShapedRange<'a> {
    pub range: Range,
    pub body: &'a VecDeque<Piece>,
    pub added: &'a [Added],
}

fn add_kinds(kinds: &mut Items<Added>, added: &[Added]) -> Result<(), NoMemory>
    ensures { OnOk result (kinds.new ≡ kinds.old ++ added.now) }
{
    for kind in added {
        kinds.push(*kind)?;
    }
    Ok(())
}

/// What each cell of the row is for.
pub fn kinds_of_row(alloc: Global, ranges: &[ShapedRange<'_>]) -> Result<Items<Added>, NoMemory>
    ensures { IfOk result (λ kinds. map seen_added kinds ≡ kinds_of_row (seen_ranges ranges.now)) }
{
    let mut kinds = Items::new(alloc);
    for at in 0..ranges.len() {
        add_kinds(&mut kinds, ranges[at].added)?;
    }
    Ok(kinds)
}

/// Where each body names cells.
pub fn cell_uses_of(
    alloc: Global,
    ranges: &[ShapedRange<'_>],
) -> Result<Items<Items<CellUse>>, NoMemory>
    ensures { Makes (cell_uses_of ranges.now) result }
{
    let mut told = Items::new(alloc);
    for at in 0..ranges.len() {
        told.push(cell_uses(alloc, ranges[at].body)?)?;
    }
    Ok(told)
}

/// Adds the places of the cells that are named, among `count` cells that come after `before`
/// others.
fn add_named(
    named: &mut Items<u32>,
    before: usize,
    count: usize,
    told: &[CellUse],
) -> Result<(), NoMemory>
    requires { before + count < 2 ^ 32 }
    ensures { OnOk result (named.new ≡ named.old ++ in_row before count (cells_of told.now)) }
{
    for mention in told {
        if (mention.cell as usize) < count {
            named.push((before + mention.cell as usize) as u32)?;
        }
    }
    Ok(())
}

fn add_all_named(
    named: &mut Items<u32>,
    ranges: &[ShapedRange<'_>],
    told: &[Items<CellUse>],
) -> Result<(), NoMemory>
    requires few { length (kinds_of_row (seen_ranges ranges.now)) < 2 ^ 32 }
    requires told { told.now ≡ cell_uses_of ranges.now }
    ensures { OnOk result (named.new ≡ named.old ++ named_behind 0 (seen_ranges ranges.now)) }
{
    let mut before = 0usize;
    for at in 0..ranges.len() {
        let count = ranges[at].added.len();
        add_named(named, before, count, told[at].as_slice())?;
        before += count;
    }
    Ok(())
}

/// The places of cells in the order in which they are named, and then all places.
pub fn places_named(
    alloc: Global,
    ranges: &[ShapedRange<'_>],
    told: &[Items<CellUse>],
    count: u32,
) -> Result<Items<u32>, NoMemory>
    requires count { count ≡ length (kinds_of_row (seen_ranges ranges.now)) }
    requires told { told.now ≡ cell_uses_of ranges.now }
    ensures { Makes (named_behind 0 (seen_ranges ranges.now) ++ counted_on 0 count) result }
{
    let mut named = Items::new(alloc);
    add_all_named(&mut named, ranges, told)?;
    for place in 0..count {
        named.push(place)?;
    }
    Ok(named)
}
