//! A trail's hops, which step over ranges by their lemmas.

ghost use Rattle.std.specs.Prelude.{[], ◌∷◌, ◌++◌, ◌≡◌, ◌<◌, ◌≤◌, ℕ, true, false, length, slice_get, Some, IfOk};
ghost use Rattle.cob_tree.specs.declared.program.Range.{Range};
ghost use Rattle.program_points.specs.declared.paths.trail.Move.TheVariants.{Into};
ghost use Rattle.program_points.specs.point_table.Table.{IsTidy};
ghost use Rattle.overlap_trail.specs.finding.Goal.{IsMetSomewhere};
ghost use Rattle.overlap_trail.specs.finding.Search.{flags_of};
ghost use Rattle.overlap_trail.specs.finding.Hops.{aim_at, HopsCome};

use crate::finding::chain::CallChain;
use crate::finding::goal::{SearchGoal, SearchOutcome, route_to};
use cob_base::{Items, NoMemory};
use cob_tree::FlowFault;
use program_points::paths::{Hop, Move};
use program_points::point_table::Table;
use std::alloc::Global;

/// What the search of the level with this number is for.
fn aim_of(chain: &CallChain, number: usize) -> SearchGoal
    requires { number < length chain.now.ranges.items }
    ensures { result ≡ aim_at chain.now.ranges.items chain.now.fault number }
{
    match chain.ranges.get(number + 1) {
        Some(later) => SearchGoal::Enter(*later),
        None => match chain.fault {
            FlowFault::Overlap(paragraph) => SearchGoal::End(paragraph),
            FlowFault::Reentry(paragraph) => SearchGoal::Ending(paragraph),
        },
    }
}

/// The moves, and then one into a range where `more` says so.
fn entering(moves: Items<Move>, more: bool) -> Result<Items<Move>, NoMemory>
    ensures on { more ≡ true → IfOk result (λ made. made ≡ moves ++ Into ∷ []) }
    ensures off { more ≡ false → IfOk result (λ made. made ≡ moves) }
{
    let mut made = moves;
    if more {
        made.push(Move::Into)?;
    }
    Ok(made)
}

/// The hops of the chain's ranges: each to where it performs the next, and the last to the fault.
pub fn hops_of(
    alloc: Global,
    table: &Table,
    numbers: &[Option<u32>],
    chain: &CallChain,
) -> Result<Items<Hop>, NoMemory>
    requires tidy { IsTidy table.now }
    requires known { length table.now.ranges ≤ length numbers.now }
    requires comes { (number : ℕ) (range : Range) →
        slice_get chain.now.ranges.items number ≡ Some range →
        IsMetSomewhere table.now (flags_of numbers.now) range
        (aim_at chain.now.ranges.items chain.now.fault number) }
    ensures { IfOk result (λ hops.
        HopsCome table.now numbers.now chain.now.ranges.items chain.now.fault hops) }
{
    let mut hops = Items::new(alloc);
    let count = chain.ranges.len();
    for number in 0..count {
        let range = chain.ranges[number];
        let aim = aim_of(chain, number);
        match route_to(alloc, table, numbers, range, aim)? {
            SearchOutcome::Moves(found) => {
                let moves = entering(found, number + 1 < count)?;
                hops.push(Hop { range, moves })?;
            }
            // This can't happen: each level comes to what it is searched for.
            SearchOutcome::Nowhere(_) => return Ok(hops),
        }
    }
    Ok(hops)
}
