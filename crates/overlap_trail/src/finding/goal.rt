//! Where a search of a level ends.

ghost use Rattle.std.specs.Prelude.{◌≤◌, ◌↔◌, length, IfOk, IsTrue, MatchOption};
ghost use Rattle.program_points.specs.point_table.Table.{IsTidy};
ghost use Rattle.pending_returns.specs.levels.Reach.{AllPlaces};
ghost use Rattle.overlap_trail.specs.finding.Goal.{IsAimed, NoneMeets, MeetsAt, IsRoute};

use crate::finding::distinct::is_same;
use crate::finding::search::{SearchTree, followed, moves_to};
use cob_base::{Items, NoMemory};
use cob_tree::Range;
use pending_returns::levels::{Reach, ends_at};
use program_points::paths::Move;
use program_points::point_table::{ProgramPoint, Table};
use std::alloc::Global;

/// What a search of a level is for.
#[derive(Debug, Clone, Copy)]
pub enum SearchGoal {
    /// The end of this paragraph.
    End(u32),
    /// A PERFORM of this range.
    Enter(Range),
    /// A PERFORM of a range that ends with this paragraph.
    Ending(u32),
}

/// Whether a place is what the search is for.
pub fn is_met(table: &Table, aim: SearchGoal, place: &ProgramPoint) -> bool
    ensures { IsTrue result ↔ IsAimed table.now aim place.now }
{
    match place {
        ProgramPoint::Calls { range, .. } => match table.ranges.get(*range as usize) {
            Some(called) => match aim {
                SearchGoal::Enter(target) => is_same(*called, target),
                SearchGoal::Ending(paragraph) => ends_at(called.exit, paragraph),
                SearchGoal::End(_) => false,
            },
            None => false,
        },
        ProgramPoint::Ends(paragraph) => match aim {
            SearchGoal::End(end) => *paragraph == end,
            SearchGoal::Enter(_) => false,
            SearchGoal::Ending(_) => false,
        },
        _ => false,
    }
}

/// The number of the first of these places that is what the search is for.
pub fn first_met(table: &Table, aim: SearchGoal, places: &[u32]) -> Option<usize>
    requires { AllPlaces (length table.now.places) places.now }
    ensures { MatchOption result (NoneMeets table.now aim places.now)
        (λ at. MeetsAt table.now aim places.now at) }
{
    for at in 0..places.len() {
        let number = places[at] as usize;
        if is_met(table, aim, &table.places.as_slice()[number]) {
            return Some(at);
        }
    }
    None
}

/// What a search found: the moves to what it is for, or, where the level doesn't come to that, all
/// places that the level comes to.
#[derive(Debug, Drop)]
pub enum SearchOutcome {
    Moves(Items<Move>),
    Nowhere(Vec<u32>),
}

/// Searches a range's level for `aim`, stepping over the ranges that have lemmas.
pub fn route_to(
    alloc: Global,
    table: &Table,
    numbers: &[Option<u32>],
    range: Range,
    aim: SearchGoal,
) -> Result<SearchOutcome, NoMemory>
    requires tidy { IsTidy table.now }
    requires known { length table.now.ranges ≤ length numbers.now }
    ensures { IfOk result (λ found. IsRoute table.now numbers.now range aim found) }
{
    let route = followed(alloc, table, numbers, range)?;
    match first_met(table, aim, route.reach.places.as_slice()) {
        Some(at) => {
            let moves = moves_to(alloc, route.came.as_slice(), at)?;
            Ok(SearchOutcome::Moves(moves))
        }
        None => {
            let SearchTree { reach, .. } = route;
            let Reach { places, .. } = reach;
            Ok(SearchOutcome::Nowhere(places))
        }
    }
}
