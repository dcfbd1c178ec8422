//! A paragraph, and the place at its start.

ghost use Rattle.std.specs.Prelude.{◌≡◌, ◌≤◌, length, map, IfOk, OnOk};
ghost use Rattle.control_flow_theory.specs.language.Control.{seen_sentence};
ghost use Rattle.program_points.specs.numbering.Kind.{never_first_of};
ghost use Rattle.program_points.specs.numbering.Build.{IsHere};
ghost use Rattle.program_points.specs.table_building.Numbering.{BuildsParagraph, Extends};

use crate::numbering::Here;
use crate::point_table::ProgramPoint;
use crate::table_building::begin::Numbering;
use cob_base::{Items, NoMemory};
use cob_tree::{FileEntry, Sentence};
use std::alloc::Global;

/// A copy of this place.
pub fn copied(alloc: Global, place: &ProgramPoint) -> Result<ProgramPoint, NoMemory>
    ensures { IfOk result (λ copy. copy ≡ place.now) }
{
    match place {
        ProgramPoint::Goes(to) => Ok(ProgramPoint::Goes(*to)),
        ProgramPoint::Chooses(ways) => {
            let ways = Items::from_slice(alloc, ways.as_slice())?;
            Ok(ProgramPoint::Chooses(ways))
        }
        ProgramPoint::Calls { range, after } => Ok(ProgramPoint::Calls {
            range: *range,
            after: *after,
        }),
        ProgramPoint::Stops => Ok(ProgramPoint::Stops),
        ProgramPoint::Ends(paragraph) => Ok(ProgramPoint::Ends(*paragraph)),
    }
}

/// Notes that the places up to this number belong to this paragraph.
pub fn own(owners: &mut Vec<u32>, until: usize, number: u32) -> Result<(), NoMemory>
    requires { length owners.old.items ≤ until }
    ensures { OnOk result (Extends owners.old.items owners.new.items until number) }
{
    for place in owners.len()..until {
        owners.push(number)?;
    }
    Ok(())
}

/// Adds the places of a paragraph, and puts what control does first in it at the place of its
/// start.
pub fn build_paragraph(
    numbering: &mut Numbering,
    alloc: Global,
    files: &[FileEntry],
    here: Here,
    sentences: &Items<Sentence>,
) -> Result<(), NoMemory>
    requires here { IsHere numbering.old.builder.count here }
    requires owners { length numbering.old.owners.items
        ≡ length numbering.old.builder.places.items }
    ensures builds { OnOk result (BuildsParagraph (never_first_of files.now)
        numbering.old.builder.count
        numbering.old.builder.places.items numbering.new.builder.places.items
        numbering.old.builder.ranges.items numbering.new.builder.ranges.items
        numbering.old.owners.items numbering.new.owners.items
        (map (seen_sentence here.last) sentences.now) here.number) }
    ensures count { numbering.new.builder.count ≡ numbering.old.builder.count }
    ensures owners { OnOk result (length numbering.new.owners.items
        ≡ length numbering.new.builder.places.items) }
{
    let begin = numbering.builder.build_rest(alloc, files, here, sentences)?;
    // It always comes later: a paragraph begins at a place of its own, or at that of its end.
    if begin <= here.number || begin as usize >= numbering.builder.places.len() {
        return Err(NoMemory);
    }
    own(
        &mut numbering.owners,
        numbering.builder.places.len(),
        here.number,
    )?;
    let place = copied(alloc, &numbering.builder.places[begin as usize])?;
    numbering.builder.places[here.number as usize] = place;
    Ok(())
}
