//! Spots of places of numbers alone, kept before a run.

ghost use Rattle.std.specs.Prelude.{◌≡◌, IfSome, slice_get};
ghost use Rattle.cob_tree.specs.declared.place.Place.{out-Place};
ghost use Rattle.cob_store.specs.ConstantPlace.{IsKnownOf};

use crate::area::{Area, area_at};
use crate::constant_place::{
    ConstantPlace, WindowNumbers, expr_number, is_of, known_spot, sub_number,
};
use crate::place::{reached, whole_of};
use crate::store::Store;
use cob_base::{Boxed, NoMemory};
use cob_tree::{Place, Sub, Window};
use smallvec::SmallVec;
use std::alloc::Global;

/// How many places of an item are kept at most, so that searching them is fast. The spots of others
/// are computed each time.
const MOST_KNOWN: usize = 16;

// The numbers of subscripts, of which a place has at most three.
fn subs_of(alloc: Global, subs: &[Sub]) -> Option<SmallVec<u64, 3>> {
    let mut numbers = SmallVec::new(alloc);
    for sub in subs {
        numbers.push(sub_number(sub)?).ok()?;
    }
    Some(numbers)
}

fn part_of(window: &Window) -> Option<WindowNumbers> {
    let length = match &window.length {
        None => None,
        Some(length) => Some(expr_number(length)?),
    };
    Some(WindowNumbers {
        from: expr_number(&window.from)?,
        length,
    })
}

// The numbers of a place, with the item itself for its spot, where it is of numbers alone.
fn numbers_of(alloc: Global, area: &Area, place: &Place) -> Option<ConstantPlace> {
    let part = match &place.window {
        None => None,
        Some(window) => Some(part_of(window.get())?),
    };
    let whole = whole_of(area);
    Some(ConstantPlace {
        whole,
        subs: subs_of(alloc, place.subs.as_slice())?,
        part,
        spot: whole,
    })
}

// What is to be kept of a place; none where it isn't of numbers alone, or leads nowhere.
fn learned(areas: &[Area], store: &Store, place: &Place) -> Option<ConstantPlace>
    ensures { IfSome result (λ known.
        IsKnownOf (slice_get areas.now (out-Place place.now).item) known) }
{
    let area = area_at(areas, place.item)?;
    let whole = whole_of(area);
    let known = numbers_of(store.allocator(), area, place)?;
    if area.dims.known().len() >= MOST_KNOWN || known_spot(&area.dims, whole, place).is_some() {
        return None;
    }
    if !is_of(&known, whole, place) {
        return None;
    }
    let Ok(reached) = reached(areas, store, place) else {
        return None;
    };
    Some(ConstantPlace {
        spot: reached.spot,
        ..known
    })
}

/// Keeps the spot of a place whose subscripts and window are numbers alone, where the place has
/// one. To contracts the areas stay the same.
pub fn know(areas: &mut [Area], store: &Store, place: &Place) -> Result<(), NoMemory>
    ensures { areas.new ≡ areas.old }
{
    if place.subs.len() == 0 && place.window.is_none() {
        return Ok(());
    }
    let Some(known) = learned(areas, store, place) else {
        return Ok(());
    };
    let dims = &mut areas[place.item as usize].dims;
    dims.keep(known)
}
