//! From a numbering to a table.

ghost use Rattle.std.specs.Prelude.{◌≡◌, true, IfOk};
ghost use Rattle.program_points.specs.table_building.Numbering.{BoundsEntries, Counts};

use crate::numbering::Builder;
use crate::point_table::Table;
use crate::table_building::begin::Numbering;
use cob_base::{Items, NoMemory};
use cob_tree::Range;
use std::alloc::Global;

/// Whether each range's entry is one of so many paragraphs.
pub fn bounds_entries(ranges: &[Range], count: u32) -> bool
    ensures { result ≡ true → BoundsEntries count ranges.now }
{
    for range in ranges {
        if range.entry >= count {
            return false;
        }
    }
    true
}

/// The numbers of so many paragraphs.
pub fn numbers(alloc: Global, count: u32) -> Result<Items<u32>, NoMemory>
    ensures { IfOk result (λ starts. Counts count starts) }
{
    let mut starts = Items::new(alloc);
    for number in 0..count {
        starts.push(number)?;
    }
    Ok(starts)
}

/// The table of a finished numbering. Err where memory runs out, and where a range's entry isn't
/// there.
pub fn finished(alloc: Global, numbering: Numbering) -> Result<Table, NoMemory>
    ensures places { IfOk result (λ table. table.places ≡ numbering.builder.places.items) }
    ensures owners { IfOk result (λ table. table.owners ≡ numbering.owners.items) }
    ensures ranges { IfOk result (λ table. table.ranges ≡ numbering.builder.ranges.items) }
    ensures starts { IfOk result (λ table. Counts numbering.builder.count table.starts) }
    ensures entries { IfOk result (λ table. BoundsEntries numbering.builder.count table.ranges) }
{
    let Numbering { builder, owners } = numbering;
    let Builder {
        places,
        ranges,
        count,
    } = builder;
    if !bounds_entries(ranges.as_slice(), count) {
        return Err(NoMemory);
    }
    let starts = numbers(alloc, count)?;
    Ok(Table {
        places: Items::from_vec(places),
        owners: Items::from_vec(owners),
        starts,
        ranges: Items::from_vec(ranges),
    })
}
