//! What is above an entry, among those of its program.

ghost use Rattle.std.specs.Prelude.{◌≡◌, ◌<◌, ◌≤◌, ◌^◌, ◌||◌, length};
ghost use Rattle.symbol_tables.specs.data_names.Nesting.{count_to, groups_from, nestings_of};
ghost use Rattle.declaration_checks.specs.Standing as standings;

use cob_tree::Entry;
use symbol_tables::data_names::{Nesting, nesting_at, repeats};

/// What is above an entry.
#[derive(Clone, Copy, Debug)]
pub struct Standing {
    /// How many groups above it repeat.
    pub dims: usize,
    /// Whether a group above it redefines, repeats or has a value.
    pub barred: bool,
}

/// The entries after one.
pub fn behind(entries: &[Entry], at: usize) -> &[Entry]
    ensures { result.now ≡ standings.behind entries.now at }
{
    if at < entries.len() {
        &entries[at + 1..]
    } else {
        &[]
    }
}

fn bars_value(group: &Entry) -> bool
    ensures { result ≡ standings.bars_value group.now }
{
    group.redefines.is_some() || group.occurs.is_some() || group.value.is_some()
}

fn barred_too(barred: bool, group: &Entry) -> bool
    ensures { result ≡ (barred || standings.bars_value group.now) }
{
    barred || bars_value(group)
}

/// What is above an entry that is in this one.
pub fn standing_of(entries: &[Entry], nestings: &[Nesting], holder: Option<usize>) -> Standing
    requires short { length entries.now < 2 ^ 31 }
    requires table { nestings.now ≡ nestings_of entries.now }
    requires within { count_to holder ≤ length entries.now }
    ensures { result ≡ standings.standing_in (groups_from entries.now holder) }
{
    let mut dims = 0usize;
    let mut barred = false;
    let mut next = holder;
    while let Some(number) = next {
        let group = &entries[number];
        dims += usize::from(repeats(group));
        barred = barred_too(barred, group);
        next = nesting_at(nestings, number).holder;
    }
    Standing { dims, barred }
}
