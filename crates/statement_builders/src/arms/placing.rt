//! The places of the procedures of ranges.

ghost use Rattle.std.specs.Prelude.{Decides, MatchOption};
ghost use Rattle.statement_builders.specs.arms.Placing.{HasNone, HasPlace, IsBefore};

/// A range of paragraphs, and the place of its procedure in the structured program, from 0.
#[derive(Clone, Copy, Debug, PartialEq, Eq)]
pub struct ProcedurePlace {
    pub entry: u32,
    pub exit: u32,
    pub place: u32,
}

fn is_before(placed: ProcedurePlace, entry: u32, exit: u32) -> bool
    ensures { Decides result (IsBefore placed.entry placed.exit entry exit) }
{
    placed.entry < entry || placed.entry == entry && placed.exit < exit
}

/// The place of the range's procedure. Where the ranges are in order, by entry and then by exit, it
/// is found if it is there.
pub fn place_of(places: &[ProcedurePlace], entry: u32, exit: u32) -> Option<u32>
    ensures { MatchOption result (HasNone places.now entry exit)
        (λ place. HasPlace places.now entry exit place) }
{
    let mut low = 0;
    let mut high = places.len();
    while low < high {
        let middle = low + (high - low) / 2;
        let placed = places[middle];
        if placed.entry == entry && placed.exit == exit {
            return Some(placed.place);
        }
        if is_before(placed, entry, exit) {
            low = middle + 1;
        } else {
            high = middle;
        }
    }
    None
}
