//! What a level performs, and whose ends it passes.

ghost use Rattle.std.specs.Prelude.{◌≡◌, length, OnOk};
ghost use Rattle.program_points.specs.point_table.Table.{IsTidy};
ghost use Rattle.pending_returns.specs.levels.Reach.{AllPlaces, IsMarked, GathersAllCalls, GathersAllEnds};

use crate::levels::reach::{Reach, ends_at};
use cob_base::NoMemory;
use cob_tree::Range;
use program_points::point_table::{ProgramPoint, Table};

/// Sets `calls` to the ranges that these places perform.
pub fn calls_of(calls: &mut Reach, table: &Table, places: &[u32]) -> Result<(), NoMemory>
    requires marked { IsMarked calls.old.places.items calls.old.marks.items }
    requires size { length calls.old.marks.items ≡ length table.now.ranges }
    requires tidy { IsTidy table.now }
    requires places { AllPlaces (length table.now.places) places.now }
    ensures calls { OnOk result (GathersAllCalls table.now places.now calls.new.places.items) }
    ensures marked { IsMarked calls.new.places.items calls.new.marks.items }
    ensures size { length calls.new.marks.items ≡ length table.now.ranges }
{
    calls.clear();
    for number in places {
        match &table.places.as_slice()[*number as usize] {
            ProgramPoint::Calls { range, .. } => calls.visit(*range)?,
            _ => {}
        }
    }
    Ok(())
}

/// Sets `ends` to the paragraphs whose end is among these places and isn't the range's return.
pub fn ends_of(
    ends: &mut Reach,
    table: &Table,
    range: Range,
    places: &[u32],
) -> Result<(), NoMemory>
    requires marked { IsMarked ends.old.places.items ends.old.marks.items }
    requires size { length ends.old.marks.items ≡ length table.now.starts }
    requires tidy { IsTidy table.now }
    requires places { AllPlaces (length table.now.places) places.now }
    ensures ends { OnOk result (GathersAllEnds table.now range places.now ends.new.places.items) }
    ensures marked { IsMarked ends.new.places.items ends.new.marks.items }
    ensures size { length ends.new.marks.items ≡ length table.now.starts }
{
    ends.clear();
    for number in places {
        match &table.places.as_slice()[*number as usize] {
            ProgramPoint::Ends(paragraph) => {
                if !ends_at(range.exit, *paragraph) {
                    ends.visit(*paragraph)?;
                }
            }
            _ => {}
        }
    }
    Ok(())
}
