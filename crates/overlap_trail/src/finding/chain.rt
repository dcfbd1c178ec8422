//! The ranges of a trail's hops.

ghost use Rattle.std.specs.Prelude.{◌∷◌, ◌++◌, ◌≡◌, ◌<◌, ◌↔◌, ℕ, length, slice_get, Some, IfOk, OnOk, IsTrue, MatchOption};
ghost use Rattle.pending_returns.specs.levels.Reach.{Holds, IsMarked};
ghost use Rattle.pending_returns.specs.Tabled.{AllBelow, AddsCalls, CallsBelow};
ghost use Rattle.pending_returns.specs.faults.Clash.{LeadsFrom, HasClash};
ghost use Rattle.overlap_trail.specs.finding.Search.{Tracks, GoBack};
ghost use Rattle.overlap_trail.specs.finding.Chain.{ByCall, TracesCalls, Along, WentTo, EndsAmong, IsChain, IsLevels, HasWay};

use crate::finding::search::{Predecessor, SearchTree};
use cob_base::NoMemory;
use cob_tree::{FlowFault, Range};
use pending_returns::faults::Clash;
use pending_returns::levels::ends_at;
use pending_returns::{RangeFacts, number_of, visit_calls};
use std::alloc::Global;

/// The ranges of the hops, main first, with the fault that the last one's level comes to.
#[derive(Debug, Drop)]
pub struct CallChain {
    pub ranges: Vec<Range>,
    pub fault: FlowFault,
}

/// Adds the ranges with these numbers, come to from the one with number `before`.
fn come_by_calls(route: &mut SearchTree, calls: &[u32], before: u32) -> Result<(), NoMemory>
    requires marked { IsMarked route.old.reach.places.items route.old.reach.marks.items }
    requires below { AllBelow (length route.old.reach.marks.items) calls.now }
    requires size { length route.old.came.items ≡ length route.old.reach.places.items }
    ensures adds { OnOk result
        (AddsCalls calls.now route.old.reach.places.items route.new.reach.places.items) }
    ensures marked { IsMarked route.new.reach.places.items route.new.reach.marks.items }
    ensures marks { length route.new.reach.marks.items ≡ length route.old.reach.marks.items }
    ensures tracks { OnOk result (Tracks (λ to how. ByCall calls.now before to how)
        route.old.reach.places.items route.new.reach.places.items
        route.old.came.items route.new.came.items) }
{
    visit_calls(&mut route.reach, calls)?;
    let came = Predecessor {
        before,
        moved: None,
    };
    for _ in route.came.len()..route.reach.places.len() {
        route.came.push(came)?;
    }
    Ok(())
}

/// The ranges to which calls lead from this one, each with how it was come to.
fn led_from(alloc: Global, levels: &[RangeFacts], base: u32) -> Result<SearchTree, NoMemory>
    requires base { base < length levels.now }
    requires known { CallsBelow (length levels.now) levels.now }
    ensures led { IfOk result (λ route. (number : ℕ) →
        Holds route.reach.places.items number ↔ LeadsFrom levels.now base number) }
    ensures traces { IfOk result (λ route.
        TracesCalls levels.now base route.reach.places.items route.came.items) }
{
    let mut route = SearchTree::new(alloc, levels.len())?;
    let came = Predecessor {
        before: 0,
        moved: None,
    };
    route.visit(base, came)?;
    for at in 0..levels.len() {
        if at >= route.reach.places.len() {
            return Ok(route);
        }
        let before = number_of(at)?;
        let number = route.reach.places[at] as usize;
        come_by_calls(&mut route, levels[number].calls.as_slice(), before)?;
    }
    Ok(route)
}

/// The place of the number among these, where it is among them.
fn place_in(numbers: &[u32], number: u32) -> Option<usize>
    ensures { MatchOption result (Holds numbers.now number → ⊥)
        (λ at. slice_get numbers.now at ≡ Some number) }
{
    for at in 0..numbers.len() {
        if numbers[at] == number {
            return Some(at);
        }
    }
    None
}

/// The places on the way to this one, after the first.
fn way_to(
    alloc: Global,
    came: &[Predecessor],
    places: &[u32],
    at: usize,
) -> Result<Vec<u32>, NoMemory>
    requires back { GoBack came.now }
    requires there { at < length came.now }
    requires size { length came.now ≡ length places.now }
    ensures { IfOk result (λ path. WentTo came.now places.now at path.items) }
{
    let mut path = Vec::new(alloc);
    let mut here = at;
    for _ in 0..came.len() {
        if here == 0 {
            break;
        }
        path.push(places[here])?;
        here = came[here].before as usize;
    }
    path.reverse();
    Ok(path)
}

/// The ranges on a shortest path of calls between these, after the first.
fn path_between(
    alloc: Global,
    levels: &[RangeFacts],
    from: u32,
    to: u32,
) -> Result<Vec<u32>, NoMemory>
    requires from { from < length levels.now }
    requires known { CallsBelow (length levels.now) levels.now }
    requires leads { LeadsFrom levels.now from to }
    ensures { IfOk result (λ path. Along levels.now from path.items to) }
{
    let route = led_from(alloc, levels, from)?;
    let places = route.reach.places.as_slice();
    match place_in(places, to) {
        Some(at) => way_to(alloc, route.came.as_slice(), places, at),
        // This can't happen: calls lead there.
        None => Ok(Vec::new(alloc)),
    }
}

/// Whether one of the ranges ends at this paragraph.
fn is_pending(ranges: &[Range], end: u32) -> bool
    ensures { IsTrue result ↔ EndsAmong ranges.now end }
{
    for range in ranges {
        if ends_at(range.exit, end) {
            return true;
        }
    }
    false
}

/// The end of the range, where one of these ranges ends there too.
fn pending_end(ranges: &[Range], range: Range) -> Option<u32>
    ensures { MatchOption result
        ((end : ℕ) → range.exit ≡ Some end → EndsAmong ranges.now end → ⊥)
        (λ end. (range.exit ≡ Some end) × EndsAmong ranges.now end) }
{
    match range.exit {
        Some(end) => {
            if is_pending(ranges, end) {
                Some(end)
            } else {
                None
            }
        }
        None => None,
    }
}

/// The chain along these ranges, cut off before the first that ends where an earlier one does.
fn cut(
    alloc: Global,
    levels: &[RangeFacts],
    path: &[u32],
    fault: FlowFault,
) -> Result<CallChain, NoMemory>
    requires levels { IsLevels levels.now }
    requires below { AllBelow (length levels.now) path.now }
    requires way { HasWay levels.now path.now fault }
    ensures { IfOk result (λ chain. IsChain levels.now chain.ranges.items chain.fault) }
{
    let mut ranges = Vec::new(alloc);
    for at in 0..path.len() {
        let range = levels[path[at] as usize].range;
        match pending_end(ranges.as_slice(), range) {
            Some(end) => {
                return Ok(CallChain {
                    ranges,
                    fault: FlowFault::Reentry(end),
                });
            }
            None => {}
        }
        ranges.push(range)?;
    }
    Ok(CallChain { ranges, fault })
}

/// Main, then the ranges of `front`, and then those of `back`.
fn main_then(alloc: Global, front: &[u32], back: &[u32]) -> Result<Vec<u32>, NoMemory>
    ensures { IfOk result (λ path. path.items ≡ 0 ∷ (front.now ++ back.now)) }
{
    let mut path = Vec::new(alloc);
    path.push(0)?;
    path.extend_from_slice(front)?;
    path.extend_from_slice(back)?;
    Ok(path)
}

/// The chain that shows the clash.
pub fn chain_of(alloc: Global, levels: &[RangeFacts], clash: Clash) -> Result<CallChain, NoMemory>
    requires levels { IsLevels levels.now }
    requires clash { HasClash levels.now clash }
    requires leads { LeadsFrom levels.now 0 clash.base }
    ensures { IfOk result (λ chain. IsChain levels.now chain.ranges.items chain.fault) }
{
    let front = path_between(alloc, levels, 0, clash.base)?;
    let back = path_between(alloc, levels, clash.base, clash.last)?;
    let path = main_then(alloc, front.as_slice(), back.as_slice())?;
    cut(alloc, levels, path.as_slice(), clash.fault)
}
