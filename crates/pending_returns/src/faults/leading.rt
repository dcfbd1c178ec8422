//! The ranges to which calls lead.

ghost use Rattle.std.specs.Prelude.{ℕ, ◌≡◌, ◌<◌, ◌↔◌, length, OnOk};
ghost use Rattle.pending_returns.specs.levels.Reach.{Holds, IsMarked};
ghost use Rattle.pending_returns.specs.Tabled.{CallsBelow};
ghost use Rattle.pending_returns.specs.faults.Clash.{LeadsFrom};

use crate::levels::Reach;
use crate::{RangeFacts, visit_calls};
use cob_base::NoMemory;

/// Sets `reach` to the ranges to which calls lead from this one. What it had before is removed, in
/// the time that it took to add. Err where memory runs out.
pub fn callees_from(reach: &mut Reach, levels: &[RangeFacts], base: u32) -> Result<(), NoMemory>
    requires marked { IsMarked reach.old.places.items reach.old.marks.items }
    requires size { length reach.old.marks.items ≡ length levels.now }
    requires base { base < length levels.now }
    requires known { CallsBelow (length levels.now) levels.now }
    ensures led { OnOk result ((number : ℕ) →
        Holds reach.new.places.items number ↔ LeadsFrom levels.now base number) }
    ensures marked { IsMarked reach.new.places.items reach.new.marks.items }
    ensures size { length reach.new.marks.items ≡ length levels.now }
{
    reach.clear();
    reach.visit(base)?;
    for at in 0..levels.len() {
        if at >= reach.places.len() {
            return Ok(());
        }
        let number = reach.places[at] as usize;
        visit_calls(reach, levels[number].calls.as_slice())?;
    }
    Ok(())
}
