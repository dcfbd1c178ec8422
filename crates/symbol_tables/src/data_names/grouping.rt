//! The groups of entries, by their levels.

ghost use Rattle.std.specs.Prelude.{◌≡◌};
ghost use Rattle.symbol_tables.specs.data_names.Grouping.{bound_of, has_items, holds, is_numbered, repeats, same_file};

use cob_tree::Entry;

/// Whether it is a level of the items of a record, 01 to 49.
pub fn is_numbered(level: u8) -> bool
    ensures { result ≡ is_numbered level }
{
    0 < level && level < 50
}

/// The bound on the level of an entry's group: this must be lower.
pub fn bound_of(level: u8) -> u8
    ensures { result ≡ bound_of level }
{
    if level < 50 || level == 88 { level } else { 0 }
}

/// Whether an entry with this bound may be in this item.
pub fn holds(bound: u8, entry: &Entry) -> bool
    ensures { result ≡ holds bound entry.now }
{
    (is_numbered(entry.level) || entry.level == 77) && entry.level < bound
}

/// Whether two entries are in the same FD, or both in working storage.
pub fn same_file(file: Option<u32>, other: Option<u32>) -> bool
    ensures { result ≡ same_file file other }
{
    match (file, other) {
        (None, None) => true,
        (Some(file), Some(other)) => file == other,
        _ => false,
    }
}

/// Whether it has an OCCURS clause itself.
pub fn repeats(entry: &Entry) -> bool
    ensures { result ≡ repeats entry.now }
{
    entry.occurs.is_some()
}

/// Whether an entry of this level and file has items below it among the entries after it.
pub fn has_items(level: u8, file: Option<u32>, behind: &[Entry]) -> bool
    ensures { result ≡ has_items level file behind.now }
{
    for entry in behind {
        if !same_file(file, entry.file) {
            return false;
        }
        if is_numbered(entry.level) {
            return level < entry.level;
        }
    }
    false
}
