//! What a range's level comes to.

ghost use Rattle.std.specs.Prelude.{[], ◌≡◌, ◌<◌, ◌≤◌, true, Some, length, IfOk, OnOk};
ghost use Rattle.program_points.specs.point_table.Table.{AllBelow, IsTidy, IsTidyPlace};
ghost use Rattle.pending_returns.specs.levels.Reach.{IsMarked, Adds, AddsNext, AddsAll, IsReach};
ghost use Rattle.program_points.specs.paths.Flow.{is_exit};

use cob_base::NoMemory;
use cob_tree::Range;
use program_points::point_table::{ProgramPoint, Table};
use std::alloc::Global;

/// The places that were come to, in that order, with a mark on each.
#[derive(Debug, Drop)]
pub struct Reach {
    pub places: Vec<u32>,
    pub marks: Vec<bool>,
}

impl Reach {
    /// A search of so many places that has come to none yet.
    pub fn new(alloc: Global, count: usize) -> Result<Reach, NoMemory>
        ensures none { IfOk result (λ reach. reach.places.items ≡ []) }
        ensures marked { IfOk result (λ reach. IsMarked reach.places.items reach.marks.items) }
        ensures size { IfOk result (λ reach. length reach.marks.items ≡ count) }
    {
        let marks = vec![in alloc; false; count]?;
        Ok(Reach {
            places: Vec::new(alloc),
            marks,
        })
    }

    /// Removes all places, in time proportional to their number.
    pub fn clear(&mut self)
        requires marked { IsMarked self.old.places.items self.old.marks.items }
        ensures none { self.new.places.items ≡ [] }
        ensures marked { IsMarked self.new.places.items self.new.marks.items }
        ensures size { length self.new.marks.items ≡ length self.old.marks.items }
    {
        for at in 0..self.places.len() {
            let place = self.places[at] as usize;
            self.marks[place] = false;
        }
        self.places.clear();
    }

    /// Adds a place, unless it has been added.
    pub fn visit(&mut self, place: u32) -> Result<(), NoMemory>
        requires room { place < length self.old.marks.items }
        requires marked { IsMarked self.old.places.items self.old.marks.items }
        ensures adds { OnOk result (Adds self.old.places.items self.new.places.items place) }
        ensures marked { IsMarked self.new.places.items self.new.marks.items }
        ensures size { length self.new.marks.items ≡ length self.old.marks.items }
    {
        if !self.marks[place as usize] {
            self.places.push(place)?;
            self.marks[place as usize] = true;
        }
        Ok(())
    }

    /// Adds the places to which control goes on from this one.
    pub fn visit_next(
        &mut self,
        table: &Table,
        returns: &[bool],
        range: Range,
        place: &ProgramPoint,
    ) -> Result<(), NoMemory>
        requires marked { IsMarked self.old.places.items self.old.marks.items }
        requires size { length self.old.marks.items ≡ length table.now.places }
        requires tidy { IsTidy table.now }
        requires tidy_place { IsTidyPlace table.now place.now }
        requires known { length table.now.ranges ≤ length returns.now }
        ensures adds { OnOk result
            (AddsNext table.now returns.now range place.now self.old.places.items
            self.new.places.items) }
        ensures marked { IsMarked self.new.places.items self.new.marks.items }
        ensures size { length self.new.marks.items ≡ length self.old.marks.items }
    {
        match place {
            ProgramPoint::Goes(to) => self.visit(*to),
            ProgramPoint::Chooses(ways) => self.visit_all(ways.as_slice()),
            ProgramPoint::Calls {
                range: called,
                after,
            } => {
                if returns[*called as usize] {
                    self.visit(*after)
                } else {
                    Ok(())
                }
            }
            ProgramPoint::Stops => Ok(()),
            ProgramPoint::Ends(paragraph) => {
                if ends_at(range.exit, *paragraph) {
                    return Ok(());
                }
                match table.starts.get(*paragraph as usize + 1) {
                    Some(start) => self.visit(*start),
                    None => Ok(()),
                }
            }
        }
    }

    /// Adds the places of all ways that aren't missing.
    pub fn visit_all(&mut self, ways: &[Option<u32>]) -> Result<(), NoMemory>
        requires marked { IsMarked self.old.places.items self.old.marks.items }
        requires below { AllBelow (length self.old.marks.items) ways.now }
        ensures adds { OnOk result (AddsAll ways.now self.old.places.items self.new.places.items) }
        ensures marked { IsMarked self.new.places.items self.new.marks.items }
        ensures size { length self.new.marks.items ≡ length self.old.marks.items }
    {
        for way in ways {
            match way {
                Some(to) => self.visit(*to)?,
                None => {}
            }
        }
        Ok(())
    }
}

/// Whether the range ends with this paragraph.
pub fn ends_at(exit: Option<u32>, paragraph: u32) -> bool
    ensures { result ≡ is_exit exit paragraph }
{
    match exit {
        Some(end) => end == paragraph,
        None => false,
    }
}

/// Sets `reach` to the places that the range's level comes to, where these ranges return, in the
/// order in which it comes to them. What it had before is removed. Err where memory runs out.
pub fn reached(
    reach: &mut Reach,
    table: &Table,
    returns: &[bool],
    range: Range,
) -> Result<(), NoMemory>
    requires marked { IsMarked reach.old.places.items reach.old.marks.items }
    requires size { length reach.old.marks.items ≡ length table.now.places }
    requires tidy { IsTidy table.now }
    requires known { length table.now.ranges ≤ length returns.now }
    ensures reach { OnOk result (IsReach table.now returns.now range reach.new.places.items) }
    ensures marked { IsMarked reach.new.places.items reach.new.marks.items }
    ensures size { length reach.new.marks.items ≡ length table.now.places }
{
    reach.clear();
    match table.starts.get(range.entry as usize) {
        Some(start) => reach.visit(*start)?,
        None => {}
    }
    for at in 0..table.places.len() {
        if at >= reach.places.len() {
            return Ok(());
        }
        let number = reach.places[at] as usize;
        reach.visit_next(table, returns, range, &table.places.as_slice()[number])?;
    }
    Ok(())
}
