//! The places that a level comes to, with the moves that lead there.

ghost use Rattle.std.specs.Prelude.{[], ◌≡◌, ◌<◌, ◌≤◌, ℕ, Bool, List, Option, length, IfOk, OnOk};
ghost use Rattle.program_points.specs.paths.Step.{only};
ghost use Rattle.program_points.specs.declared.point_table.table.ProgramPoint.TheVariants.{Ends};
ghost use Rattle.program_points.specs.point_table.Table.{AllBelow, IsTidy, IsTidyPlace};
ghost use Rattle.pending_returns.specs.levels.Reach.{IsMarked, Adds, AddsNext, AddsAll, IsReach};
ghost use Rattle.overlap_trail.specs.finding.Search.{is_there, flags_of, arm_of, Tracks, ByWay, ByStep, TracesLevel, GoBack, TakenTo};

use cob_base::{Items, NoMemory};
use cob_tree::Range;
use pending_returns::levels::{Reach, ends_at};
use pending_returns::number_of;
use program_points::paths::Move;
use program_points::point_table::{ProgramPoint, Table};
use std::alloc::Global;

/// How a place was come to: the number of the place before it, among those come to, and the move
/// that was taken there.
#[derive(Debug, Clone, Copy)]
pub struct Predecessor {
    pub before: u32,
    pub moved: Option<Move>,
}

/// The places that were come to, each with how it was come to.
#[derive(Debug, Drop)]
pub struct SearchTree {
    pub reach: Reach,
    pub came: Vec<Predecessor>,
}

/// The move that takes the way with this number, from 0; none where it is the only one.
fn arm(alone: bool, number: usize) -> Result<Option<Move>, NoMemory>
    ensures { IfOk result (λ moved. moved ≡ arm_of alone number) }
{
    if alone {
        return Ok(None);
    }
    let number = number_of(number)?;
    if number == u32::MAX {
        return Err(NoMemory);
    }
    Ok(Some(Move::Arm(number + 1)))
}

/// Whether the way isn't missing.
pub fn is_way(way: Option<u32>) -> bool
    ensures { result ≡ is_there way }
{
    match way {
        Some(_) => true,
        None => false,
    }
}

/// Whether exactly one of the ways isn't missing.
fn is_alone(ways: &[Option<u32>]) -> bool
    ensures { result ≡ is_there (only ways.now) }
{
    let mut found = false;
    for number in 0..ways.len() {
        if is_way(ways[number]) {
            if found {
                return false;
            }
            found = true;
        }
    }
    found
}

impl SearchTree {
    /// A search of so many places that has come to none yet.
    pub fn new(alloc: Global, count: usize) -> Result<SearchTree, NoMemory>
        ensures none { IfOk result (λ route. route.reach.places.items ≡ []) }
        ensures marked { IfOk result
            (λ route. IsMarked route.reach.places.items route.reach.marks.items) }
        ensures marks { IfOk result (λ route. length route.reach.marks.items ≡ count) }
        ensures came { IfOk result (λ route. route.came.items ≡ []) }
    {
        let reach = Reach::new(alloc, count)?;
        Ok(SearchTree {
            reach,
            came: Vec::new(alloc),
        })
    }

    /// Adds a place, unless it was come to before.
    pub fn visit(&mut self, place: u32, came: Predecessor) -> Result<(), NoMemory>
        requires room { place < length self.old.reach.marks.items }
        requires marked { IsMarked self.old.reach.places.items self.old.reach.marks.items }
        requires size { length self.old.came.items ≡ length self.old.reach.places.items }
        ensures adds { OnOk result
            (Adds self.old.reach.places.items self.new.reach.places.items place) }
        ensures marked { IsMarked self.new.reach.places.items self.new.reach.marks.items }
        ensures marks { length self.new.reach.marks.items ≡ length self.old.reach.marks.items }
        ensures tracks { OnOk result (Tracks (λ to how. (to ≡ place) × (how ≡ came))
            self.old.reach.places.items self.new.reach.places.items
            self.old.came.items self.new.came.items) }
    {
        self.reach.visit(place)?;
        if self.came.len() < self.reach.places.len() {
            self.came.push(came)?;
        }
        Ok(())
    }

    /// Adds the places of all ways that aren't missing.
    pub fn visit_all(&mut self, ways: &[Option<u32>], before: u32) -> Result<(), NoMemory>
        requires marked { IsMarked self.old.reach.places.items self.old.reach.marks.items }
        requires below { AllBelow (length self.old.reach.marks.items) ways.now }
        requires size { length self.old.came.items ≡ length self.old.reach.places.items }
        ensures adds { OnOk result
            (AddsAll ways.now self.old.reach.places.items self.new.reach.places.items) }
        ensures marked { IsMarked self.new.reach.places.items self.new.reach.marks.items }
        ensures marks { length self.new.reach.marks.items ≡ length self.old.reach.marks.items }
        ensures tracks { OnOk result (Tracks (λ to how. ByWay ways.now before to how)
            self.old.reach.places.items self.new.reach.places.items
            self.old.came.items self.new.came.items) }
    {
        let alone = is_alone(ways);
        for number in 0..ways.len() {
            let way = ways[number];
            let moved = arm(alone, number)?;
            match way {
                Some(to) => self.visit(to, Predecessor { before, moved })?,
                None => {}
            }
        }
        Ok(())
    }

    /// Goes on from a place, stepping over the ranges that have lemmas.
    pub fn visit_next(
        &mut self,
        table: &Table,
        numbers: &[Option<u32>],
        range: Range,
        place: &ProgramPoint,
        before: u32,
    ) -> Result<(), NoMemory>
        requires marked { IsMarked self.old.reach.places.items self.old.reach.marks.items }
        requires marks { length self.old.reach.marks.items ≡ length table.now.places }
        requires tidy { IsTidy table.now }
        requires tidy_place { IsTidyPlace table.now place.now }
        requires known { length table.now.ranges ≤ length numbers.now }
        requires size { length self.old.came.items ≡ length self.old.reach.places.items }
        ensures adds { OnOk result (AddsNext table.now (flags_of numbers.now) range place.now
            self.old.reach.places.items self.new.reach.places.items) }
        ensures marked { IsMarked self.new.reach.places.items self.new.reach.marks.items }
        ensures marks { length self.new.reach.marks.items ≡ length self.old.reach.marks.items }
        ensures tracks { OnOk result
            (Tracks (λ to how. ByStep table.now numbers.now range place.now before to how)
            self.old.reach.places.items self.new.reach.places.items
            self.old.came.items self.new.came.items) }
    {
        match place {
            ProgramPoint::Goes(to) => self.visit(
                *to,
                Predecessor {
                    before,
                    moved: None,
                },
            ),
            ProgramPoint::Chooses(ways) => self.visit_all(ways.as_slice(), before),
            ProgramPoint::Calls {
                range: called,
                after,
            } => match numbers[*called as usize] {
                Some(lemma) => self.visit(
                    *after,
                    Predecessor {
                        before,
                        moved: Some(Move::Over(lemma)),
                    },
                ),
                None => Ok(()),
            },
            ProgramPoint::Stops => Ok(()),
            ProgramPoint::Ends(paragraph) => self.visit_past(table, range, *paragraph, before),
        }
    }

    /// Goes on after a paragraph's end, unless the range ends there.
    fn visit_past(
        &mut self,
        table: &Table,
        range: Range,
        paragraph: u32,
        before: u32,
    ) -> Result<(), NoMemory>
        requires marked { IsMarked self.old.reach.places.items self.old.reach.marks.items }
        requires marks { length self.old.reach.marks.items ≡ length table.now.places }
        requires tidy { IsTidy table.now }
        requires paragraph { paragraph < length table.now.starts }
        requires size { length self.old.came.items ≡ length self.old.reach.places.items }
        ensures adds { OnOk result ((returns : List Bool) →
            AddsNext table.now returns range (Ends paragraph)
            self.old.reach.places.items self.new.reach.places.items) }
        ensures marked { IsMarked self.new.reach.places.items self.new.reach.marks.items }
        ensures marks { length self.new.reach.marks.items ≡ length self.old.reach.marks.items }
        ensures tracks { OnOk result ((numbers : List (Option ℕ)) →
            Tracks (λ to how. ByStep table.now numbers range (Ends paragraph) before to how)
            self.old.reach.places.items self.new.reach.places.items
            self.old.came.items self.new.came.items) }
    {
        if ends_at(range.exit, paragraph) {
            return Ok(());
        }
        match table.starts.get(paragraph as usize + 1) {
            Some(start) => self.visit(
                *start,
                Predecessor {
                    before,
                    moved: None,
                },
            ),
            None => Ok(()),
        }
    }
}

/// All places that the range's level comes to, stepping over the ranges that have lemmas, in the
/// order in which it comes to them.
pub fn followed(
    alloc: Global,
    table: &Table,
    numbers: &[Option<u32>],
    range: Range,
) -> Result<SearchTree, NoMemory>
    requires tidy { IsTidy table.now }
    requires known { length table.now.ranges ≤ length numbers.now }
    ensures reach { IfOk result
        (λ route. IsReach table.now (flags_of numbers.now) range route.reach.places.items) }
    ensures traces { IfOk result (λ route.
        TracesLevel table.now numbers.now range route.reach.places.items route.came.items) }
{
    let mut route = SearchTree::new(alloc, table.places.len())?;
    match table.starts.get(range.entry as usize) {
        Some(start) => route.visit(
            *start,
            Predecessor {
                before: 0,
                moved: None,
            },
        )?,
        None => {}
    }
    for at in 0..table.places.len() {
        if at >= route.reach.places.len() {
            return Ok(route);
        }
        let before = number_of(at)?;
        let number = route.reach.places[at] as usize;
        let place = &table.places.as_slice()[number];
        route.visit_next(table, numbers, range, place, before)?;
    }
    Ok(route)
}

/// The moves that were taken up to this place.
pub fn moves_to(alloc: Global, came: &[Predecessor], at: usize) -> Result<Items<Move>, NoMemory>
    requires back { GoBack came.now }
    requires there { at < length came.now }
    ensures { IfOk result (λ moves. TakenTo came.now at moves) }
{
    let mut moves = Vec::new(alloc);
    let mut here = at;
    for _ in 0..came.len() {
        if here == 0 {
            break;
        }
        let Predecessor { before, moved } = came[here];
        match moved {
            Some(moved) => moves.push(moved)?,
            None => {}
        }
        here = before as usize;
    }
    moves.reverse();
    Ok(Items::from_vec(moves))
}
