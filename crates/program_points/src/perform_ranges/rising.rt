//! Ranges in their order, each once.

ghost use Rattle.std.specs.Prelude.{◌≡◌, ◌∷◌, ◌≤◌, length, IfOk, OnOk};
ghost use Rattle.program_points.specs.perform_ranges.Named.{is_before, main_range, IsBehind, IsInOrder, IsNext, IsRisingOf, AreRangesOf};

use crate::perform_ranges::named::named_paragraphs;
use cob_base::NoMemory;
use cob_tree::{Program, Range};
use std::alloc::Global;

/// Whether a range comes before another: main before all, then by entry, then by exit.
pub fn is_before(range: Range, other: Range) -> bool
    ensures { result ≡ is_before range other }
{
    match other.exit {
        None => false,
        Some(later) => match range.exit {
            None => true,
            Some(exit) => {
                range.entry < other.entry || range.entry == other.entry && exit < later
            }
        },
    }
}

/// The place of a range among ranges in their order, or where it would be.
pub fn place_of(ranges: &[Range], range: Range) -> usize
    ensures { result ≤ length ranges.now }
{
    let mut low = 0;
    let mut high = ranges.len();
    while low < high {
        let middle = low + (high - low) / 2;
        if is_before(ranges[middle], range) {
            low = middle + 1;
        } else {
            high = middle;
        }
    }
    low
}

/// Adds a range after the last one, unless it is that one.
fn add_behind(ranges: &mut Vec<Range>, last: Range, range: Range) -> Result<(), NoMemory>
    requires { IsNext last range }
    ensures { OnOk result (IsBehind ranges.old.items ranges.new.items last range) }
{
    if range == last {
        return Ok(());
    }
    ranges.push(range)?;
    Ok(())
}

/// Main and the ranges, each once, in their order.
pub fn rising_of(alloc: Global, sorted: &[Range]) -> Result<Vec<Range>, NoMemory>
    requires { IsInOrder (main_range ∷ sorted.now) }
    ensures { IfOk result (λ ranges. IsRisingOf sorted.now ranges.items) }
{
    let mut ranges = Vec::new(alloc);
    let mut last = Range {
        entry: 0,
        exit: None,
    };
    ranges.push(last)?;
    for range in sorted {
        add_behind(&mut ranges, last, *range)?;
        last = *range;
    }
    Ok(ranges)
}

/// Main and the ranges that the PERFORM statements of the program name, each once and in their
/// order.
pub fn ranges_of(alloc: Global, program: &Program) -> Result<Vec<Range>, NoMemory>
    ensures { IfOk result (λ ranges. AreRangesOf program.now ranges.items) }
{
    let mut found = Vec::new(alloc);
    named_paragraphs(&mut found, program.paragraphs.as_slice())?;
    found.sort_by_key(|range: &Range| sort_key(*range))?;
    let ranges = rising_of(alloc, found.as_slice())?;
    Ok(ranges)
}

/// The sort key of a range: by entry, then by exit.
fn sort_key(range: Range) -> (u32, Option<u32>)
    ensures { result ≡ (range.entry, range.exit) }
{
    (range.entry, range.exit)
}
