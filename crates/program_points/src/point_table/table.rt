//! A program's places, by number.

use cob_base::Items;
use cob_tree::Range;

/// What control does at a place.
#[derive(Debug, Drop)]
pub enum ProgramPoint {
    /// It goes on to the place with this number.
    Goes(u32),
    /// It goes on to one of these; a missing arm has none.
    Chooses(Items<Option<u32>>),
    /// It performs the range with this number, and goes on at `after` when that has returned.
    Calls { range: u32, after: u32 },
    Stops,
    /// It is at the end of this paragraph.
    Ends(u32),
}

/// The places of a program, the paragraph of each, the place where each paragraph starts, and main
/// and the ranges that its PERFORM statements name.
#[derive(Debug, Drop)]
pub struct Table {
    pub places: Items<ProgramPoint>,
    pub owners: Items<u32>,
    pub starts: Items<u32>,
    pub ranges: Items<Range>,
}
