//! The places of the procedures of a program's ranges.

ghost use Rattle.std.specs.Prelude.{◌≡◌, ◌++◌, ◌*◌, ◌+◌, IfOk, OnOk};
ghost use Rattle.std.specs.List.Sorted.{IsNonDecreasingBy, IsPermutation};
ghost use Rattle.procedure_split.specs.made_procedures.Made.{ArePlacesIn};
ghost use Rattle.procedure_split.specs.Placing.{key_of, place_at, places_from};

use cob_base::NoMemory;
use cob_tree::Range;
use statement_builders::arms::ProcedurePlace;
use std::alloc::Global;

/// A sort key: less for a smaller entry, and at the same entry for a smaller exit.
fn key_of(placed: ProcedurePlace) -> u64
    ensures { result ≡ key_of placed }
{
    placed.entry as u64 * (1 << 32) + placed.exit as u64
}

/// Adds the place of the range's procedure, unless it is main.
fn add_place(places: &mut Vec<ProcedurePlace>, range: Range, place: u32) -> Result<(), NoMemory>
    ensures { OnOk result (places.new.items ≡ places.old.items ++ place_at range place) }
{
    match range.exit {
        None => Ok(()),
        Some(exit) => {
            places.push(ProcedurePlace {
                entry: range.entry,
                exit,
                place,
            })?;
            Ok(())
        }
    }
}

/// The places in the order of the procedures.
fn places_from(alloc: Global, order: &[Range]) -> Result<Vec<ProcedurePlace>, NoMemory>
    ensures { IfOk result (λ places. places.items ≡ places_from 0 order.now) }
{
    let mut places = Vec::new(alloc);
    let mut place = 0u32;
    for range in order {
        if place == u32::MAX {
            return Err(NoMemory);
        }
        add_place(&mut places, *range, place)?;
        place += 1;
    }
    Ok(places)
}

/// The places of the procedures of these ranges, except main's, by entry and then by exit. Err
/// where memory runs out, or there are more ranges than 32 bits number.
pub fn places_of(alloc: Global, order: &[Range]) -> Result<Vec<ProcedurePlace>, NoMemory>
    ensures places { IfOk result (λ places. ArePlacesIn order.now places.items) }
    ensures all { IfOk result (λ places. IsPermutation (places_from 0 order.now) places.items) }
    ensures sorted { IfOk result (λ places. IsNonDecreasingBy key_of places.items) }
{
    let mut places = places_from(alloc, order)?;
    places.sort_unstable_by_key(|placed: &ProcedurePlace| key_of(*placed));
    Ok(places)
}
