//! Which ranges return.

ghost use Rattle.std.specs.Prelude.{◌≡◌, ◌<◌, ◌≤◌, ◌^◌, ◌↔◌, true, false, length, IfOk, IsTrue};
ghost use Rattle.program_points.specs.point_table.Table.{IsTidy, IsClosed, ReturnsHere};
ghost use Rattle.pending_returns.specs.levels.Reach.{HasEnd, AllPlaces, IsMarked, SaysSoundly, StaysSound, trues};

use crate::levels::reach::{Reach, ends_at, reached};
use crate::levels::working::run_worklist;
use cob_base::NoMemory;
use cob_tree::Range;
use program_points::point_table::{ProgramPoint, Table};
use std::alloc::Global;

/// Whether one of the places is the end at which the range returns.
pub fn has_end(table: &Table, range: Range, places: &[u32]) -> bool
    requires { AllPlaces (length table.now.places) places.now }
    ensures { IsTrue result ↔ HasEnd table.now range places.now }
{
    for number in places {
        match &table.places.as_slice()[*number as usize] {
            ProgramPoint::Ends(paragraph) => {
                if ends_at(range.exit, *paragraph) {
                    return true;
                }
            }
            _ => {}
        }
    }
    false
}

/// Whether the range's level comes to its return, where these ranges return.
pub fn comes_back(
    reach: &mut Reach,
    table: &Table,
    returns: &[bool],
    range: Range,
) -> Result<bool, NoMemory>
    requires marked { IsMarked reach.old.places.items reach.old.marks.items }
    requires size { length reach.old.marks.items ≡ length table.now.places }
    requires tidy { IsTidy table.now }
    requires known { length table.now.ranges ≤ length returns.now }
    ensures back { IfOk result (λ back. IsTrue back ↔ ReturnsHere table.now returns.now range) }
    ensures marked { IsMarked reach.new.places.items reach.new.marks.items }
    ensures size { length reach.new.marks.items ≡ length table.now.places }
{
    reached(reach, table, returns, range)?;
    Ok(has_end(table, range, reach.places.as_slice()))
}

/// Checks each range that isn't known to return, and says whether one of them does.
pub fn recheck_all(
    reach: &mut Reach,
    table: &Table,
    returns: &mut Vec<bool>,
) -> Result<bool, NoMemory>
    requires marked { IsMarked reach.old.places.items reach.old.marks.items }
    requires places { length reach.old.marks.items ≡ length table.now.places }
    requires tidy { IsTidy table.now }
    requires size { length returns.old.items ≡ length table.now.ranges }
    ensures size { length returns.new.items ≡ length table.now.ranges }
    ensures sound { StaysSound table.now returns.old.items returns.new.items }
    ensures closed { IfOk result (λ more. more ≡ false → IsClosed table.now returns.new.items) }
    ensures more { IfOk result (λ more. more ≡ true → trues returns.old.items
        < trues returns.new.items) }
    ensures marked { IsMarked reach.new.places.items reach.new.marks.items }
    ensures places { length reach.new.marks.items ≡ length table.now.places }
{
    let mut more = false;
    for number in 0..table.ranges.len() {
        if !returns[number] {
            let range = table.ranges.as_slice()[number];
            if comes_back(reach, table, returns.as_slice(), range)? {
                returns[number] = true;
                more = true;
            }
        }
    }
    Ok(more)
}

/// Which ranges return. First a worklist finds them; then rounds over all ranges make sure that
/// there are no others.
pub fn returning_ranges(alloc: Global, table: &Table) -> Result<Vec<bool>, NoMemory>
    requires tidy { IsTidy table.now }
    requires few { length table.now.ranges < 2 ^ 32 }
    ensures size { IfOk result (λ returns. length returns.items ≡ length table.now.ranges) }
    ensures sound { IfOk result (λ returns. SaysSoundly table.now returns.items) }
    ensures closed { IfOk result (λ returns. IsClosed table.now returns.items) }
{
    let mut returns = vec![in alloc; false; table.ranges.len()]?;
    let mut reach = Reach::new(alloc, table.places.len())?;
    run_worklist(alloc, &mut reach, table, &mut returns)?;
    'rounds: loop {
        if !recheck_all(&mut reach, table, &mut returns)? {
            return Ok(returns);
        }
    }
}
