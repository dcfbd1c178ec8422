//! The lemmas of all ranges that return.

ghost use Rattle.std.specs.Prelude.{[], ◌∷◌, ◌++◌, ◌≡◌, ◌<◌, true, false, length, replicate, slice_get, slice_set, Some, None, IfOk, OnOk, MatchOption};
ghost use Rattle.cob_tree.specs.declared.program.Range.{Range};
ghost use Rattle.program_points.specs.point_table.Table.{IsTidy, IsClosed, ReturnsHere};
ghost use Rattle.pending_returns.specs.levels.Reach.{trues};
ghost use Rattle.overlap_trail.specs.finding.Search.{flags_of};
ghost use Rattle.overlap_trail.specs.finding.ReturnLemmas.{Knows, Learns, RangesOnce};

use crate::finding::goal::{SearchGoal, SearchOutcome, route_to};
use crate::finding::search::is_way;
use cob_base::{Items, NoMemory};
use cob_tree::Range;
use pending_returns::levels::Worklist;
use pending_returns::number_of;
use program_points::paths::Lemma;
use program_points::point_table::{ProgramPoint, Table};
use std::alloc::Global;

/// Lemmas, each after those that it needs; and for each range of a table the number of its own
/// lemma.
#[derive(Debug, Drop)]
pub struct ReturnLemmas {
    pub lemmas: Items<Lemma>,
    pub numbers: Vec<Option<u32>>,
}

impl ReturnLemmas {
    /// No lemma, for so many ranges.
    pub fn new(alloc: Global, count: usize) -> Result<ReturnLemmas, NoMemory>
        ensures lemmas { IfOk result (λ known. known.lemmas ≡ []) }
        ensures numbers { IfOk result (λ known. known.numbers.items ≡ replicate count None) }
    {
        let numbers = vec![in alloc; None; count]?;
        Ok(ReturnLemmas {
            lemmas: Items::new(alloc),
            numbers,
        })
    }

    /// Adds a lemma for the range with this number.
    pub fn add(&mut self, number: usize, lemma: Lemma) -> Result<(), NoMemory>
        requires { number < length self.old.numbers.items }
        ensures lemmas { OnOk result (self.new.lemmas ≡ self.old.lemmas ++ lemma ∷ []) }
        ensures numbers { OnOk result (self.new.numbers.items
            ≡ slice_set self.old.numbers.items number (Some (length self.old.lemmas))) }
    {
        let count = number_of(self.lemmas.len())?;
        self.lemmas.push(lemma)?;
        self.numbers[number] = Some(count);
        Ok(())
    }
}

/// Adds a lemma for the range with this number, which has none, where its level comes to its
/// return, stepping over the ranges that have lemmas. Otherwise answers the places that the level
/// comes to; none for main, which doesn't return.
pub fn add_if_returns(
    alloc: Global,
    table: &Table,
    known: &mut ReturnLemmas,
    number: usize,
) -> Result<Option<Vec<u32>>, NoMemory>
    requires tidy { IsTidy table.now }
    requires once { RangesOnce table.now.ranges }
    requires knows { Knows table.now known.old.lemmas known.old.numbers.items }
    requires new { slice_get known.old.numbers.items number ≡ Some None }
    ensures knows { OnOk result (Knows table.now known.new.lemmas known.new.numbers.items) }
    ensures more { IfOk result (λ left. MatchOption left
        (trues (flags_of known.old.numbers.items) < trues (flags_of known.new.numbers.items))
        (λ places. (known.new ≡ known.old) × ((range : Range) →
        slice_get table.now.ranges number ≡ Some range →
        ReturnsHere table.now (flags_of known.old.numbers.items) range → ⊥))) }
{
    let range = table.ranges.as_slice()[number];
    let end = match range.exit {
        Some(end) => end,
        None => return Ok(Some(Vec::new(alloc))),
    };
    match route_to(
        alloc,
        table,
        known.numbers.as_slice(),
        range,
        SearchGoal::End(end),
    )? {
        SearchOutcome::Moves(moves) => {
            known.add(number, Lemma { range, moves })?;
            Ok(None)
        }
        SearchOutcome::Nowhere(places) => Ok(Some(places)),
    }
}

/// Makes the range wait for those that its level performs and that have no lemmas.
fn wait_all(
    work: &mut Worklist,
    table: &Table,
    numbers: &[Option<u32>],
    range: u32,
    places: &[u32],
) -> Result<(), NoMemory> {
    for number in places {
        match table.places.get(*number as usize) {
            Some(ProgramPoint::Calls { range: called, .. }) => {
                if numbers.get(*called as usize) == Some(&None) {
                    work.wait(range, *called)?;
                }
            }
            _ => {}
        }
    }
    Ok(())
}

/// Checks the range with this number: where it returns, what waits for it is checked again;
/// otherwise it waits.
fn look(
    alloc: Global,
    table: &Table,
    known: &mut ReturnLemmas,
    work: &mut Worklist,
    number: u32,
) -> Result<(), NoMemory>
    requires tidy { IsTidy table.now }
    requires once { RangesOnce table.now.ranges }
    requires knows { Knows table.now known.old.lemmas known.old.numbers.items }
    ensures { OnOk result (Knows table.now known.new.lemmas known.new.numbers.items) }
{
    let at = number as usize;
    if at >= known.numbers.len() || known.numbers[at].is_some() {
        return Ok(());
    }
    match add_if_returns(alloc, table, known, at)? {
        None => work.wake(number),
        Some(places) => wait_all(
            work,
            table,
            known.numbers.as_slice(),
            number,
            places.as_slice(),
        ),
    }
}

/// Checks each range, and again those that wait for one that is found to return.
fn look_all(alloc: Global, table: &Table, known: &mut ReturnLemmas) -> Result<(), NoMemory>
    requires tidy { IsTidy table.now }
    requires once { RangesOnce table.now.ranges }
    requires knows { Knows table.now known.old.lemmas known.old.numbers.items }
    ensures { OnOk result (Knows table.now known.new.lemmas known.new.numbers.items) }
{
    let count = number_of(table.ranges.len())?;
    let mut work = Worklist::new(alloc, count)?;
    for at in 0..usize::MAX {
        if at >= work.queue.len() {
            return Ok(());
        }
        let number = work.queue[at];
        look(alloc, table, known, &mut work, number)?;
    }
    Ok(())
}

/// Checks the range with this number, unless it has a lemma, and says whether it has got one now.
fn is_new(
    alloc: Global,
    table: &Table,
    known: &mut ReturnLemmas,
    number: usize,
) -> Result<bool, NoMemory>
    requires tidy { IsTidy table.now }
    requires once { RangesOnce table.now.ranges }
    requires knows { Knows table.now known.old.lemmas known.old.numbers.items }
    requires there { number < length known.old.numbers.items }
    ensures knows { OnOk result (Knows table.now known.new.lemmas known.new.numbers.items) }
    ensures learns { IfOk result (λ more. Learns table.now known.old known.new number more) }
{
    if is_way(known.numbers[number]) {
        return Ok(false);
    }
    match add_if_returns(alloc, table, known, number)? {
        None => Ok(true),
        Some(_) => Ok(false),
    }
}

/// Checks each range that has no lemma once, and says whether one of them has got one.
fn round(alloc: Global, table: &Table, known: &mut ReturnLemmas) -> Result<bool, NoMemory>
    requires tidy { IsTidy table.now }
    requires once { RangesOnce table.now.ranges }
    requires knows { Knows table.now known.old.lemmas known.old.numbers.items }
    ensures knows { OnOk result (Knows table.now known.new.lemmas known.new.numbers.items) }
    ensures closed { IfOk result (λ more. more ≡ false →
        IsClosed table.now (flags_of known.new.numbers.items)) }
    ensures more { IfOk result (λ more. more ≡ true →
        trues (flags_of known.old.numbers.items) < trues (flags_of known.new.numbers.items)) }
{
    let mut more = false;
    for number in 0..known.numbers.len() {
        if is_new(alloc, table, known, number)? {
            more = true;
        }
    }
    Ok(more)
}

/// The lemmas of all ranges of the table that return. First a worklist finds them; then rounds over
/// all ranges make sure that there are no others.
pub fn known_of(alloc: Global, table: &Table) -> Result<ReturnLemmas, NoMemory>
    requires tidy { IsTidy table.now }
    requires once { RangesOnce table.now.ranges }
    ensures knows { IfOk result
        (λ known. Knows table.now known.lemmas known.numbers.items) }
    ensures closed { IfOk result
        (λ known. IsClosed table.now (flags_of known.numbers.items)) }
{
    let mut known = ReturnLemmas::new(alloc, table.ranges.len())?;
    look_all(alloc, table, &mut known)?;
    'rounds: loop {
        if !round(alloc, table, &mut known)? {
            return Ok(known);
        }
    }
}
