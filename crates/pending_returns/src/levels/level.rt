//! What a level does.

ghost use Rattle.std.specs.Prelude.{◌≤◌, length, IfOk, OnOk};
ghost use Rattle.program_points.specs.point_table.Table.{IsTidy};
ghost use Rattle.pending_returns.specs.levels.Reach.{IsReach, GathersAllCalls, GathersAllEnds};
ghost use Rattle.pending_returns.specs.levels.Level.{FitsTable};

use crate::levels::facts::{calls_of, ends_of};
use crate::levels::reach::{Reach, reached};
use cob_base::NoMemory;
use cob_tree::Range;
use program_points::point_table::Table;
use std::alloc::Global;

/// The places that a range's level comes to, the ranges that it performs, and the paragraphs whose
/// end it passes. One is made for a table and is used for each range's level in turn, so that a
/// level's cost is the number of places that it comes to.
#[derive(Debug, Drop)]
pub struct Level {
    pub places: Reach,
    pub calls: Reach,
    pub ends: Reach,
}

impl Level {
    /// A level of no range yet.
    pub fn new(alloc: Global, table: &Table) -> Result<Level, NoMemory>
        ensures { IfOk result (λ level. FitsTable table.now level) }
    {
        let places = Reach::new(alloc, table.places.len())?;
        let calls = Reach::new(alloc, table.ranges.len())?;
        let ends = Reach::new(alloc, table.starts.len())?;
        Ok(Level {
            places,
            calls,
            ends,
        })
    }

    /// Sets this to what this range's level does, where these ranges return.
    pub fn take(&mut self, table: &Table, returns: &[bool], range: Range) -> Result<(), NoMemory>
        requires fits { FitsTable table.now self.old }
        requires tidy { IsTidy table.now }
        requires known { length table.now.ranges ≤ length returns.now }
        ensures fits { FitsTable table.now self.new }
        ensures reach { OnOk result
            (IsReach table.now returns.now range self.new.places.places.items) }
        ensures calls { OnOk result
            (GathersAllCalls table.now self.new.places.places.items self.new.calls.places.items) }
        ensures ends { OnOk result
            (GathersAllEnds table.now range self.new.places.places.items
            self.new.ends.places.items) }
    {
        reached(&mut self.places, table, returns, range)?;
        calls_of(&mut self.calls, table, self.places.places.as_slice())?;
        ends_of(&mut self.ends, table, range, self.places.places.as_slice())
    }
}
