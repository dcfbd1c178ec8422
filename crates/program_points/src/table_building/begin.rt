//! The places with which numbering begins.

ghost use Rattle.std.specs.Prelude.{◌≡◌, IfOk};
ghost use Rattle.program_points.specs.table_building.Numbering.{HasEnds, CountsTwice};

use crate::numbering::Builder;
use crate::point_table::ProgramPoint;
use cob_base::NoMemory;
use cob_tree::Range;
use std::alloc::Global;

/// A builder, and the paragraph of each of its places.
#[derive(Debug, Drop)]
pub struct Numbering {
    pub builder: Builder,
    pub owners: Vec<u32>,
}

/// A place for the start of each of so many paragraphs, and after these one for the end of each.
pub fn first_places(alloc: Global, count: u32) -> Result<Vec<ProgramPoint>, NoMemory>
    ensures { IfOk result (λ places. HasEnds count places.items) }
{
    let mut places = Vec::new(alloc);
    for start in 0..count {
        places.push(ProgramPoint::Stops)?;
    }
    for number in 0..count {
        places.push(ProgramPoint::Ends(number))?;
    }
    Ok(places)
}

/// The paragraphs of those places.
pub fn numbers_twice(alloc: Global, count: u32) -> Result<Vec<u32>, NoMemory>
    ensures { IfOk result (λ owners. CountsTwice count owners.items) }
{
    let mut owners = Vec::new(alloc);
    for start in 0..count {
        owners.push(start)?;
    }
    for number in 0..count {
        owners.push(number)?;
    }
    Ok(owners)
}

/// A numbering of so many paragraphs, which begins with these ranges.
pub fn begun(alloc: Global, count: u32, ranges: Vec<Range>) -> Result<Numbering, NoMemory>
    ensures places { IfOk result (λ it. HasEnds count it.builder.places.items) }
    ensures owners { IfOk result (λ it. CountsTwice count it.owners.items) }
    ensures ranges { IfOk result (λ it. it.builder.ranges.items ≡ ranges.items) }
    ensures count { IfOk result (λ it. it.builder.count ≡ count) }
{
    let places = first_places(alloc, count)?;
    let owners = numbers_twice(alloc, count)?;
    Ok(Numbering {
        builder: Builder {
            places,
            ranges,
            count,
        },
        owners,
    })
}
