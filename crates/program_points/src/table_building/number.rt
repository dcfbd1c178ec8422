//! The paragraphs of a program, numbered from the last to the first.

ghost use Rattle.std.specs.Prelude.{◌≡◌, ◌<◌, ◌+◌, ◌^◌, suc, drop, length, IfOk, OnOk};
ghost use Rattle.control_flow_theory.specs.language.Control.{control_of, section_last, seen_paragraphs};
ghost use Rattle.program_points.specs.numbering.Kind.{never_first_of};
ghost use Rattle.program_points.specs.point_table.Table.{IsTidy};
ghost use Rattle.program_points.specs.table_building.Numbering.{Counts, HasTable, NumbersAll};

use crate::numbering::Here;
use crate::point_table::Table;
use crate::table_building::begin::{Numbering, begun};
use crate::table_building::finish::finished;
use crate::table_building::paragraph::build_paragraph;
use cob_base::NoMemory;
use cob_tree::{FileEntry, Paragraph, Program, Range};
use std::alloc::Global;

/// The last paragraph of the section of the one with this number, by that of the next one's.
pub fn last_of(paragraphs: &[Paragraph], number: u32, next: u32) -> u32
    requires { suc number < length paragraphs.now → next
        ≡ section_last (suc number) (drop (suc (suc number)) paragraphs.now) }
    ensures { result ≡ section_last number (drop (suc number) paragraphs.now) }
{
    let up = number as usize + 1;
    if up >= paragraphs.len() {
        return number;
    }
    if paragraphs[up].section.is_some() {
        return number;
    }
    next
}

/// Adds the places of the paragraphs, once those of their starts and ends are there.
pub fn build_paragraphs(
    numbering: &mut Numbering,
    alloc: Global,
    files: &[FileEntry],
    paragraphs: &[Paragraph],
) -> Result<(), NoMemory>
    requires count { numbering.old.builder.count ≡ length paragraphs.now }
    requires few { length paragraphs.now + length paragraphs.now < 2 ^ 32 }
    requires owners { length numbering.old.owners.items
        ≡ length numbering.old.builder.places.items }
    ensures builds { OnOk result (NumbersAll (never_first_of files.now)
        (seen_paragraphs 0 paragraphs.now)
        numbering.old.builder.count
        numbering.old.builder.places.items numbering.new.builder.places.items
        numbering.old.builder.ranges.items numbering.new.builder.ranges.items
        numbering.old.owners.items numbering.new.owners.items) }
    ensures count { numbering.new.builder.count ≡ numbering.old.builder.count }
    ensures owners { OnOk result (length numbering.new.owners.items
        ≡ length numbering.new.builder.places.items) }
{
    let mut last = 0;
    for number in (0..numbering.builder.count).rev() {
        last = last_of(paragraphs, number, last);
        let here = Here { number, last };
        build_paragraph(
            numbering,
            alloc,
            files,
            here,
            &paragraphs[number as usize].sentences,
        )?;
    }
    Ok(())
}

/// The table of a program, with these ranges and no others.
///
/// Err where memory runs out, where 32 bits don't number the paragraphs, places or ranges, where a
/// PERFORM names none of the ranges, and where the program or one of the ranges names a paragraph
/// that isn't there.
pub fn table_of(alloc: Global, program: &Program, ranges: Vec<Range>) -> Result<Table, NoMemory>
    ensures table { IfOk result (λ table. HasTable (never_first_of program.now.files)
        (control_of program.now) table) }
    ensures tidy { IfOk result (λ table. IsTidy table) }
    ensures ranges { IfOk result (λ table. table.ranges ≡ ranges.items) }
    ensures starts { IfOk result (λ table. Counts (length program.now.paragraphs) table.starts) }
{
    let count = program.paragraphs.len();
    // 32 bits number the places, of which each paragraph takes two.
    if count > (u32::MAX / 2) as usize {
        return Err(NoMemory);
    }
    let known = ranges.len();
    let mut numbering = begun(alloc, count as u32, ranges)?;
    let files = program.files.as_slice();
    let paragraphs = program.paragraphs.as_slice();
    build_paragraphs(&mut numbering, alloc, files, paragraphs)?;
    if numbering.builder.ranges.len() != known {
        return Err(NoMemory);
    }
    let table = finished(alloc, numbering)?;
    Ok(table)
}
