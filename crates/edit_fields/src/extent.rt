//! How long a mask is.

ghost use Rattle.std.specs.Prelude.{◌≡◌};
ghost use Rattle.edit_fields.specs.Extent as extents;

use crate::shape::tally;

/// How long the symbols so far are, written out and as they are printed.
#[derive(Clone, Copy, Debug, PartialEq, Eq)]
pub struct Extent {
    /// How many bytes, with counts written out.
    pub size: u8,
    /// In how many bytes the runs before the last one are printed.
    pub printed: u8,
    /// The last symbol, and how often it is repeated at the end.
    pub last: u8,
    pub run: u8,
    /// Whether there is a symbol other than 9 and V.
    pub edits: bool,
}

// In how many bytes a run of one symbol is printed.
fn run_size(run: u8) -> u8
    ensures { result ≡ extents.run_size run }
{
    if run <= 1 {
        run
    } else if run < 10 {
        4
    } else if run < 100 {
        5
    } else {
        6
    }
}

fn is_edit(symbol: u8) -> bool
    ensures { result ≡ extents.is_edit symbol }
{
    symbol != b'9' && symbol != b'V'
}

impl Extent {
    /// The extent of no symbols.
    pub fn none() -> Extent
        ensures { result ≡ extents.no_extent }
    {
        Extent {
            size: 0,
            printed: 0,
            last: 0,
            run: 0,
            edits: false,
        }
    }

    /// The extent with one more symbol.
    pub fn longer(self, symbol: u8) -> Extent
        ensures { result ≡ extents.longer symbol self }
    {
        if self.last == symbol {
            Extent {
                size: tally(self.size, 1),
                run: tally(self.run, 1),
                ..self
            }
        } else {
            Extent {
                size: tally(self.size, 1),
                printed: tally(self.printed, run_size(self.run)),
                last: symbol,
                run: 1,
                edits: self.edits || is_edit(symbol),
            }
        }
    }

    /// Whether a mask may be so long.
    pub fn is_short(self) -> bool
        ensures { result ≡ extents.is_short self }
    {
        self.size <= 160 && tally(self.printed, run_size(self.run)) <= 50
    }

    /// Whether a mask may end in its last symbol.
    pub fn ends_well(self) -> bool
        ensures { result ≡ extents.ends_well self }
    {
        self.last != b'.' && self.last != b','
    }
}
