//! How entries are nested, by a table in which each entry's search begins.

ghost use Rattle.std.specs.Prelude.{◌≡◌, ◌+◌, ◌<◌, ◌≤◌, Some, length, take, drop, reverse, nat_le, slice_get, if◌then◌else◌};
ghost use Rattle.cob_base.specs.Answers.{Makes};
ghost use Rattle.symbol_tables.specs.data_names.Grouping.{bound_of};
ghost use Rattle.symbol_tables.specs.data_names.Nesting as nested;

use crate::data_names::grouping::{bound_of, holds, same_file};
use crate::data_names::table::is_group;
use cob_base::{Items, NoMemory};
use cob_tree::Entry;
use std::alloc::Global;

/// How an entry is nested among those of its program.
#[derive(Clone, Copy, Debug)]
pub struct Nesting {
    /// The number of the item or group that it is in.
    pub holder: Option<usize>,
    /// Whether it is an item with items below it.
    pub group: bool,
}

/// The nesting of this number.
pub fn nesting_at(nestings: &[Nesting], at: usize) -> Nesting
    requires { at < length nestings.now }
    ensures { slice_get nestings.now at ≡ Some result }
{
    nestings[at]
}

fn one_before(number: usize) -> Option<usize>
    ensures { nested.count_to result ≡ number }
{
    if number > 0 { Some(number - 1) } else { None }
}

// Where a search goes on: an entry between this one and its group doesn't hold what has as low a
// bound.
fn next_for(bound: u8, other: &Entry, nesting: Nesting, number: usize) -> Option<usize>
    ensures { nested.count_to result
        ≡ (if nat_le bound (bound_of other.now.level) then nested.count_to nesting.holder
        else number) }
{
    if bound <= bound_of(other.level) {
        nesting.holder
    } else {
        one_before(number)
    }
}

fn nearest(bound: u8, file: Option<u32>, entries: &[Entry], nestings: &[Nesting]) -> Option<usize>
    requires within { length nestings.now ≤ length entries.now }
    requires table { nestings.now ≡ take (length nestings.now) (nested.nestings_of entries.now) }
    ensures { result ≡ nested.nearest bound file
        (reverse (take (length nestings.now) entries.now)) }
{
    let mut next = one_before(nestings.len());
    while let Some(number) = next {
        let other = &entries[number];
        if !same_file(file, other.file) {
            return None;
        }
        if holds(bound, other) {
            return Some(number);
        }
        next = next_for(bound, other, nesting_at(nestings, number), number);
    }
    None
}

fn next_nesting(entries: &[Entry], nestings: &[Nesting], entry: &Entry) -> Nesting
    requires within { length nestings.now < length entries.now }
    requires table { nestings.now ≡ take (length nestings.now) (nested.nestings_of entries.now) }
    ensures { result ≡ nested.nesting_of (reverse (take (length nestings.now) entries.now))
        entry.now (drop (length nestings.now + 1) entries.now) }
{
    Nesting {
        holder: nearest(bound_of(entry.level), entry.file, entries, nestings),
        group: is_group(entry, &entries[nestings.len() + 1..]),
    }
}

/// How each of these entries is nested.
pub fn nestings_of(alloc: Global, entries: &[Entry]) -> Result<Items<Nesting>, NoMemory>
    ensures { Makes (nested.nestings_of entries.now) result }
{
    let mut nestings = Items::new(alloc);
    for entry in entries {
        nestings.push(next_nesting(entries, nestings.as_slice(), entry))?;
    }
    Ok(nestings)
}
