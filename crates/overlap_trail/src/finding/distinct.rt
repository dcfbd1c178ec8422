//! Whether two ranges are the same.

ghost use Rattle.std.specs.Prelude.{◌≡◌, ◌↔◌, IsTrue};

use cob_tree::Range;

/// Whether two ranges are the same.
pub fn is_same(range: Range, other: Range) -> bool
    ensures { IsTrue result ↔ (range ≡ other) }
{
    if range.entry != other.entry {
        return false;
    }
    match range.exit {
        Some(exit) => match other.exit {
            Some(end) => exit == end,
            None => false,
        },
        None => other.exit.is_none(),
    }
}
