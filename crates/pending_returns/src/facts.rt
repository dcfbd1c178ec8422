//! What the level of each range does.

ghost use Rattle.std.specs.Prelude.{◌≡◌, ◌≤◌, length, IfOk};
ghost use Rattle.program_points.specs.point_table.Table.{IsTidy};
ghost use Rattle.pending_returns.specs.levels.Level.{FitsTable};
ghost use Rattle.pending_returns.specs.Tabled.{TellsLevel, TellsLevels};

use crate::levels::Level;
use crate::listing::rising;
use cob_base::{Items, NoMemory};
use cob_tree::Range;
use program_points::point_table::Table;
use std::alloc::Global;

/// What a range's level does.
#[derive(Debug, Drop)]
pub struct RangeFacts {
    pub range: Range,
    /// Whether the level comes to its return.
    pub returns: bool,
    /// The ranges that it performs, by their numbers, in ascending order.
    pub calls: Items<u32>,
    /// The paragraphs whose end it passes without returning, in ascending order.
    pub ends: Items<u32>,
}

/// What each range that some flow path performs does, main first and the others by entry and exit;
/// and for each paragraph whether some flow path comes to it.
#[derive(Debug, Drop)]
pub struct Summary {
    pub ranges: Items<RangeFacts>,
    pub reached: Items<bool>,
}

/// What a range's level does, where these ranges return.
pub fn level_of(
    alloc: Global,
    level: &mut Level,
    table: &Table,
    returns: &[bool],
    range: Range,
    back: bool,
) -> Result<RangeFacts, NoMemory>
    requires fits { FitsTable table.now level.old }
    requires tidy { IsTidy table.now }
    requires known { length table.now.ranges ≤ length returns.now }
    ensures range { IfOk result (λ facts. facts.range ≡ range) }
    ensures returns { IfOk result (λ facts. facts.returns ≡ back) }
    ensures tells { IfOk result (λ facts. TellsLevel table.now returns.now range facts.calls
        facts.ends) }
    ensures fits { FitsTable table.now level.new }
{
    level.take(table, returns, range)?;
    let calls = rising(alloc, level.calls.places.as_slice())?;
    let ends = rising(alloc, level.ends.places.as_slice())?;
    Ok(RangeFacts {
        range,
        returns: back,
        calls,
        ends,
    })
}

/// What the level of each range of the table does, where these return.
pub fn levels_of(
    alloc: Global,
    table: &Table,
    returns: &[bool],
) -> Result<Items<RangeFacts>, NoMemory>
    requires tidy { IsTidy table.now }
    requires known { length returns.now ≡ length table.now.ranges }
    ensures { IfOk result (λ levels. TellsLevels table.now returns.now levels) }
{
    let mut level = Level::new(alloc, table)?;
    let mut levels = Items::new(alloc);
    for at in 0..returns.len() {
        let range = table.ranges.as_slice()[at];
        let facts = level_of(alloc, &mut level, table, returns, range, returns[at])?;
        levels.push(facts)?;
    }
    Ok(levels)
}
