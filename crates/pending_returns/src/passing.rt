//! The paragraphs that levels come to.

ghost use Rattle.std.specs.Prelude.{◌≡◌, ◌≤◌, length, IfOk};
ghost use Rattle.program_points.specs.point_table.Table.{IsTidy};
ghost use Rattle.pending_returns.specs.levels.Reach.{AllPlaces};
ghost use Rattle.pending_returns.specs.Tabled.{AllBelow, MarksOwners, MarksLevels, OwnersBelow};

use crate::levels::{Reach, reached};
use cob_base::NoMemory;
use program_points::point_table::Table;
use std::alloc::Global;

/// Sets the flag of the paragraph of each of these places.
pub fn mark_owners(flags: &mut Vec<bool>, owners: &[u32], places: &[u32])
    requires places { AllPlaces (length owners.now) places.now }
    requires owners { OwnersBelow (length flags.old.items) owners.now }
    ensures marks { MarksOwners owners.now places.now flags.old.items flags.new.items }
    ensures size { length flags.new.items ≡ length flags.old.items }
{
    for place in places {
        flags[owners[*place as usize] as usize] = true;
    }
}

/// For each paragraph, whether the level of one of these ranges comes to it.
pub fn marked_owners(
    alloc: Global,
    table: &Table,
    returns: &[bool],
    kept: &[u32],
) -> Result<Vec<bool>, NoMemory>
    requires tidy { IsTidy table.now }
    requires known { length table.now.ranges ≤ length returns.now }
    requires below { AllBelow (length table.now.ranges) kept.now }
    ensures marks { IfOk result (λ flags. MarksLevels table.now returns.now kept.now flags.items) }
    ensures size { IfOk result (λ flags. length flags.items ≡ length table.now.starts) }
{
    let mut flags = vec![in alloc; false; table.starts.len()]?;
    let mut reach = Reach::new(alloc, table.places.len())?;
    for at in 0..kept.len() {
        let range = table.ranges.as_slice()[kept[at] as usize];
        reached(&mut reach, table, returns, range)?;
        mark_owners(&mut flags, table.owners.as_slice(), reach.places.as_slice());
    }
    Ok(flags)
}
