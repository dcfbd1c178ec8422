//! What a level does where a range that ends at some paragraph is pending.

ghost use Rattle.std.specs.Prelude.{◌↔◌, length, IsTrue, MatchOption};
ghost use Rattle.pending_returns.specs.levels.Reach.{Holds};
ghost use Rattle.pending_returns.specs.Tabled.{AllBelow};
ghost use Rattle.pending_returns.specs.faults.Clash.{EndsOne, FaultsAt, IsFine};

use crate::RangeFacts;
use crate::levels::ends_at;
use cob_tree::FlowFault;

/// Whether the number is among these.
pub fn is_among(numbers: &[u32], number: u32) -> bool
    ensures { IsTrue result ↔ Holds numbers.now number }
{
    for other in numbers {
        if *other == number {
            return true;
        }
    }
    false
}

/// Whether one of the ranges with these numbers ends there.
pub fn ends_one(levels: &[RangeFacts], numbers: &[u32], end: u32) -> bool
    requires { AllBelow (length levels.now) numbers.now }
    ensures { IsTrue result ↔ EndsOne levels.now numbers.now end }
{
    for number in numbers {
        let facts = &levels[*number as usize];
        if ends_at(facts.range.exit, end) {
            return true;
        }
    }
    false
}

/// The fault that the level comes to, where a range that ends at this paragraph is pending.
pub fn fault_at(levels: &[RangeFacts], facts: &RangeFacts, end: u32) -> Option<FlowFault>
    requires { AllBelow (length levels.now) facts.now.calls }
    ensures { MatchOption result (IsFine levels.now facts.now end)
        (λ fault. FaultsAt levels.now facts.now end fault) }
{
    if ends_one(levels, facts.calls.as_slice(), end) {
        return Some(FlowFault::Reentry(end));
    }
    if is_among(facts.ends.as_slice(), end) {
        return Some(FlowFault::Overlap(end));
    }
    None
}
