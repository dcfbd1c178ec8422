//! The ranges that main's level leads to.

ghost use Rattle.std.specs.Prelude.{ℕ, ◌≡◌, ◌<◌, ◌↔◌, Some, true, length, slice_get, IfOk, OnOk};
ghost use Rattle.pending_returns.specs.levels.Reach.{IsMarked};
ghost use Rattle.pending_returns.specs.Tabled.{AddsCalls, CallsBelow, AllBelow, LeadsTo};

use crate::facts::RangeFacts;
use crate::levels::Reach;
use cob_base::NoMemory;
use std::alloc::Global;

/// Adds the ranges of these numbers.
pub fn visit_calls(reach: &mut Reach, calls: &[u32]) -> Result<(), NoMemory>
    requires marked { IsMarked reach.old.places.items reach.old.marks.items }
    requires below { AllBelow (length reach.old.marks.items) calls.now }
    ensures adds { OnOk result (AddsCalls calls.now reach.old.places.items reach.new.places.items) }
    ensures marked { IsMarked reach.new.places.items reach.new.marks.items }
    ensures size { length reach.new.marks.items ≡ length reach.old.marks.items }
{
    for call in calls {
        reach.visit(*call)?;
    }
    Ok(())
}

/// A flag for each range to which calls lead from the first, main.
pub fn transitive_callees(alloc: Global, levels: &[RangeFacts]) -> Result<Vec<bool>, NoMemory>
    requires main { 0 < length levels.now }
    requires known { CallsBelow (length levels.now) levels.now }
    ensures size { IfOk result (λ flags. length flags.items ≡ length levels.now) }
    ensures led { IfOk result (λ flags. (number : ℕ) → slice_get flags.items number ≡ Some true
        ↔ LeadsTo levels.now number) }
{
    let count = levels.len();
    let mut reach = Reach::new(alloc, count)?;
    reach.visit(0)?;
    for at in 0..count {
        if at >= reach.places.len() {
            let Reach { marks, .. } = reach;
            return Ok(marks);
        }
        let number = reach.places[at] as usize;
        visit_calls(&mut reach, levels[number].calls.as_slice())?;
    }
    let Reach { marks, .. } = reach;
    Ok(marks)
}
