//! Which ranges return, found with a worklist.

ghost use Rattle.std.specs.Prelude.{◌≡◌, ◌<◌, ◌^◌, length};
ghost use Rattle.program_points.specs.point_table.Table.{IsTidy};
ghost use Rattle.pending_returns.specs.levels.Reach.{IsMarked, StaysSound};

use crate::levels::reach::{Reach, reached};
use crate::levels::settling::has_end;
use cob_base::NoMemory;
use program_points::point_table::{ProgramPoint, Table};
use std::alloc::Global;

/// A range that waits for another one to return, and the number of the next waiter for the same
/// range.
#[derive(Clone, Copy, Debug)]
pub struct Waiter {
    pub range: u32,
    pub next: Option<u32>,
}

/// The ranges to check, whether each range is still to be checked, and the ranges that wait: for
/// each range its first waiter.
#[derive(Debug, Drop)]
pub struct Worklist {
    pub queue: Vec<u32>,
    pub queued: Vec<bool>,
    pub firsts: Vec<Option<u32>>,
    pub waits: Vec<Waiter>,
}

impl Worklist {
    /// A worklist of so many ranges, the last first, since PERFORM mostly names later ones.
    pub fn new(alloc: Global, count: u32) -> Result<Worklist, NoMemory> {
        let mut queue = Vec::new(alloc);
        for number in (0..count).rev() {
            queue.push(number)?;
        }
        Ok(Worklist {
            queue,
            queued: vec![in alloc; true; count as usize]?,
            firsts: vec![in alloc; None; count as usize]?,
            waits: Vec::new(alloc),
        })
    }

    /// Has a range checked again once `called` is found to return, as long as 32 bits number those
    /// that wait: the rounds find what the worklist misses.
    pub fn wait(&mut self, range: u32, called: u32) -> Result<(), NoMemory> {
        let number = match u32::try_from(self.waits.len()) {
            Ok(number) => number,
            Err(_) => return Ok(()),
        };
        match self.firsts.get_mut(called as usize) {
            Some(first) => {
                let next = *first;
                *first = Some(number);
                self.waits.push(Waiter { range, next })?;
                Ok(())
            }
            None => Ok(()),
        }
    }

    /// Puts a range on the list, unless it is still to be checked: else a range that waits for
    /// several in a row would be on it twice as often after each of them.
    pub fn put(&mut self, range: u32) -> Result<(), NoMemory> {
        match self.queued.get_mut(range as usize) {
            Some(queued) => {
                if *queued {
                    return Ok(());
                }
                *queued = true;
                self.queue.push(range)?;
                Ok(())
            }
            None => Ok(()),
        }
    }

    /// Notes that a range on the list is checked now.
    pub fn begin(&mut self, range: u32) {
        match self.queued.get_mut(range as usize) {
            Some(queued) => *queued = false,
            None => {}
        }
    }

    /// Puts on the list what waits for this range, which was found to return.
    pub fn wake(&mut self, called: u32) -> Result<(), NoMemory> {
        let mut next = match self.firsts.get(called as usize) {
            Some(first) => *first,
            None => None,
        };
        for turn in 0..self.waits.len() {
            let number = match next {
                Some(number) => number,
                None => return Ok(()),
            };
            match self.waits.get(number as usize) {
                Some(wait) => {
                    let Waiter { range, next: later } = *wait;
                    self.put(range)?;
                    next = later;
                }
                None => return Ok(()),
            }
        }
        Ok(())
    }

    /// Makes the range wait for those that its level performs and that aren't known to return.
    pub fn wait_all(
        &mut self,
        table: &Table,
        returns: &[bool],
        range: u32,
        places: &[u32],
    ) -> Result<(), NoMemory> {
        for number in places {
            match table.places.get(*number as usize) {
                Some(ProgramPoint::Calls { range: called, .. }) => {
                    if returns.get(*called as usize) == Some(&false) {
                        self.wait(range, *called)?;
                    }
                }
                _ => {}
            }
        }
        Ok(())
    }
}

/// Notes that the range with this number returns, where it does; otherwise it waits.
pub fn update_range(
    reach: &mut Reach,
    table: &Table,
    returns: &mut Vec<bool>,
    work: &mut Worklist,
    number: u32,
) -> Result<(), NoMemory>
    requires marked { IsMarked reach.old.places.items reach.old.marks.items }
    requires places { length reach.old.marks.items ≡ length table.now.places }
    requires tidy { IsTidy table.now }
    requires size { length returns.old.items ≡ length table.now.ranges }
    ensures size { length returns.new.items ≡ length table.now.ranges }
    ensures sound { StaysSound table.now returns.old.items returns.new.items }
    ensures marked { IsMarked reach.new.places.items reach.new.marks.items }
    ensures places { length reach.new.marks.items ≡ length table.now.places }
{
    if number as usize >= returns.len() || returns[number as usize] {
        return Ok(());
    }
    let range = table.ranges.as_slice()[number as usize];
    reached(reach, table, returns.as_slice(), range)?;
    if has_end(table, range, reach.places.as_slice()) {
        returns[number as usize] = true;
        work.wake(number)
    } else {
        work.wait_all(table, returns.as_slice(), number, reach.places.as_slice())
    }
}

/// Checks each range, and again those that wait for one that is found to return.
pub fn run_worklist(
    alloc: Global,
    reach: &mut Reach,
    table: &Table,
    returns: &mut Vec<bool>,
) -> Result<(), NoMemory>
    requires marked { IsMarked reach.old.places.items reach.old.marks.items }
    requires places { length reach.old.marks.items ≡ length table.now.places }
    requires tidy { IsTidy table.now }
    requires size { length returns.old.items ≡ length table.now.ranges }
    requires few { length table.now.ranges < 2 ^ 32 }
    ensures size { length returns.new.items ≡ length table.now.ranges }
    ensures sound { StaysSound table.now returns.old.items returns.new.items }
    ensures marked { IsMarked reach.new.places.items reach.new.marks.items }
    ensures places { length reach.new.marks.items ≡ length table.now.places }
{
    let mut work = Worklist::new(alloc, table.ranges.len() as u32)?;
    for at in 0..usize::MAX {
        if at >= work.queue.len() {
            return Ok(());
        }
        let number = work.queue[at];
        work.begin(number);
        update_range(reach, table, returns, &mut work, number)?;
    }
    Ok(())
}
