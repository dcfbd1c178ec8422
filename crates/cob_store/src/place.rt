//! Where places are, and the values of operands and expressions.

ghost use Rattle.std.specs.Prelude.{◌≡◌, ◌<◌, ◌^◌, IfSome, Some, map, slice_get, unsigned_abs};
ghost use Rattle.cob_tree.specs.declared.place.Place.{out-Place};
ghost use Rattle.cob_store.specs.ConstantPlace.{LeadsTo};
ghost use Rattle.cob_store.specs.Place.{calculated, expr_value, kept, kept_behind, literal_value, memory_of, negated, number_at, occurrence, occurrence_at, offset_in, operand_value, place_value, reached, signed_by, spot_of, sub_value, subscripted, sum_by, window_of, with_kept};

use crate::area::{Area, Dim, Form, area_at};
use crate::constant_place::{expr_number, known_spot};
use crate::spot::{Reached, Spot};
use crate::store::Store;
use cob_num::{Dec, Stored, add, mul, quotient, store, sub};
use cob_tree::{Abend, Expr, Figure, Number, Op, Operand, Place, Sub, Window};
use smallvec::SmallVec;

/// The value of a number as it was written.
pub fn literal_value(number: &Number) -> Option<Dec>
    ensures { result ≡ literal_value number.now }
{
    let digits = number.digits.number()?;
    Dec::new(signed_by(number.negative, digits), number.scale)
}

fn signed_by(negative: bool, digits: u64) -> i128
    ensures value { result ≡ signed_by negative digits }
    ensures short { unsigned_abs result < 2 ^ 64 }
{
    if negative {
        -i128::from(digits)
    } else {
        i128::from(digits)
    }
}

/// What an item with this number of digits before and after the point keeps of a number, aligned
/// and cut, or `None` where it doesn't have 1 to 18 digits.
pub fn kept(number: Dec, whole: u8, part: u8, rounded: bool) -> Option<Stored>
    ensures { result ≡ kept whole part rounded number }
{
    if whole > 18 || part > 18 {
        return None;
    }
    let digits = whole + part;
    if digits >= 1 && digits <= 18 {
        Some(store(number, digits, part, rounded))
    } else {
        None
    }
}

// A number from 1 to the count, less 1; OutOfRange otherwise.
fn offset_in(value: Option<Dec>, count: u32) -> Result<u32, Abend>
    ensures { result ≡ offset_in value count }
{
    let Some(number) = value else {
        return Err(Abend::OutOfRange);
    };
    let size = number.value.unsigned_abs();
    if number.value > 0 && size <= u128::from(count) {
        Ok((size - 1) as u32)
    } else {
        Err(Abend::OutOfRange)
    }
}

fn occurrence(dim: Dim, start: u32, offset: u32) -> u32
    ensures { result ≡ occurrence dim start offset }
{
    start.saturating_add(offset.saturating_mul(dim.stride))
}

// Adds an offset. A place has at most three subscripts, so their offsets need no allocation.
fn keep_behind(offsets: &mut SmallVec<u32, 3>, offset: u32) -> Result<(), Abend>
    requires { offsets.old.capacity ≡ 3 }
    ensures kept { with_kept result offsets.new.items ≡ kept_behind offsets.old.items offset }
    ensures room { offsets.new.capacity ≡ 3 }
{
    if offsets.len() >= 3 {
        return Err(Abend::OutOfRange);
    }
    offsets.push_reserved(offset);
    Ok(())
}

// The start of the occurrence with these offsets from the first.
fn occurrence_at(offsets: &[u32], dims: &[Dim], start: u32) -> u32
    ensures { result ≡ occurrence_at offsets.now dims.now start }
{
    let mut at = start;
    let mut left = dims;
    for offset in offsets {
        let Some((dim, inner)) = left.split_first() else {
            return at;
        };
        at = occurrence(*dim, at, *offset);
        left = inner;
    }
    at
}

fn sum_by(a: Option<Dec>, b: Option<Dec>) -> Option<Dec>
    ensures { result ≡ sum_by a b }
{
    match (a, b) {
        (Some(a), Some(b)) => add(a, b),
        _ => None,
    }
}

fn negated(value: Option<Dec>) -> Option<Dec>
    ensures { result ≡ negated value }
{
    let number = value?;
    let zero = Dec::new(0, 0)?;
    sub(zero, number)
}

fn calculated(op: Op, a: Option<Dec>, b: Option<Dec>) -> Option<Dec>
    ensures { result ≡ calculated op a b }
{
    let (Some(a), Some(b)) = (a, b) else {
        return None;
    };
    match op {
        Op::Add => add(a, b),
        Op::Sub => sub(a, b),
        Op::Mul => mul(a, b),
        Op::Div => quotient(a, b, 9),
    }
}

/// The number at a spot of that form, or `None` where it is text.
pub fn number_at(store: &Store, spot: Spot, form: Form) -> Result<Option<Dec>, Abend>
    ensures { result ≡ number_at store.now spot form }
{
    match form {
        Form::Number { .. } => {
            let number = store.value(spot, form)?;
            Ok(Some(number))
        }
        Form::Group => Ok(None),
        Form::Edited => Ok(None),
        Form::Text => Ok(None),
    }
}

/// The whole of an item's first occurrence.
pub fn whole_of(area: &Area) -> Spot
    ensures { result ≡ spot_of area.now area.now.start }
{
    Spot {
        root: area.root,
        start: area.start,
        length: area.size,
    }
}

// Whether no subscript is an item's value, and the window, where there is one, begins at a number.
fn has_numbers(place: &Place) -> bool {
    if !place.subs.as_slice().iter().all(|sub| sub.base.is_none()) {
        return false;
    }
    match &place.window {
        None => true,
        Some(window) => expr_number(&window.get().from).is_some(),
    }
}

// The spot of a place and its form, where the spot is known.
fn reached_before(area: &Area, place: &Place) -> Option<Reached>
    ensures { IfSome result (λ reached. LeadsTo area.now place.now reached) }
{
    if !has_numbers(place) {
        return None;
    }
    let spot = known_spot(&area.dims, whole_of(area), place)?;
    let form = match &place.window {
        None => area.form,
        Some(_) => Form::Text,
    };
    Some(Reached { spot, form })
}

/// The spot of a place with its form, or the first fault on the way there.
#[cycle(reach)]
pub fn reached(areas: &[Area], store: &Store, place: &Place) -> Result<Reached, Abend>
    ensures { result ≡ reached place.now (memory_of areas.now store.now) }
{
    let Some(area) = area_at(areas, place.item) else {
        return Err(Abend::OutOfRange);
    };
    if place.subs.len() == 0 && place.window.is_none() {
        return Ok(Reached {
            spot: whole_of(area),
            form: area.form,
        });
    }
    match reached_before(area, place) {
        Some(reached) => Ok(reached),
        None => worked_out(areas, store, area, place),
    }
}

#[cycle(reach)]
fn worked_out(areas: &[Area], store: &Store, area: &Area, place: &Place) -> Result<Reached, Abend>
    requires { slice_get areas.now (out-Place place.now).item ≡ Some area.now }
    ensures { result ≡ reached place.now (memory_of areas.now store.now) }
{
    let start = subscripted(
        areas,
        store,
        place.subs.as_slice(),
        area.dims.as_slice(),
        area.start,
    )?;
    let spot = Spot {
        root: area.root,
        start,
        length: area.size,
    };
    match &place.window {
        None => Ok(Reached {
            spot,
            form: area.form,
        }),
        Some(window) => {
            let part = windowed(areas, store, window.get(), spot)?;
            Ok(Reached {
                spot: part,
                form: Form::Text,
            })
        }
    }
}

#[cycle(reach)]
fn subscripted(
    areas: &[Area],
    store: &Store,
    subs: &[Sub],
    dims: &[Dim],
    start: u32,
) -> Result<u32, Abend>
    ensures { result ≡ subscripted (memory_of areas.now store.now) (map sub_value subs.now) dims.now
        start }
{
    let mut offsets = SmallVec::new(store.allocator());
    let mut left = dims;
    for sub in subs {
        let Some((dim, inner)) = left.split_first() else {
            return Ok(occurrence_at(offsets.as_slice(), dims, start));
        };
        let value = sub_value(areas, store, sub)?;
        let offset = offset_in(value, dim.count)?;
        keep_behind(&mut offsets, offset)?;
        left = inner;
    }
    Ok(occurrence_at(offsets.as_slice(), dims, start))
}

#[cycle(reach)]
fn sub_value(areas: &[Area], store: &Store, sub: &Sub) -> Result<Option<Dec>, Abend>
    ensures { result ≡ sub_value sub.now (memory_of areas.now store.now) }
{
    let plus = literal_value(&sub.plus);
    match &sub.base {
        None => Ok(plus),
        Some(base) => {
            let value = place_value(areas, store, base.get())?;
            Ok(sum_by(value, plus))
        }
    }
}

#[cycle(reach)]
fn windowed(areas: &[Area], store: &Store, window: &Window, spot: Spot) -> Result<Spot, Abend>
    ensures { result ≡ window_of window.now (memory_of areas.now store.now) spot }
{
    let from = expr_value(areas, store, &window.from)?;
    let offset = offset_in(from, spot.length)?;
    let behind = Spot {
        root: spot.root,
        start: spot.start.saturating_add(offset),
        length: spot.length - offset,
    };
    match &window.length {
        None => Ok(behind),
        Some(size) => {
            let value = expr_value(areas, store, size)?;
            let last = offset_in(value, behind.length)?;
            Ok(Spot {
                root: behind.root,
                start: behind.start,
                length: last + 1,
            })
        }
    }
}

/// The number in a place, or `None` where it is text.
#[cycle(reach)]
pub fn place_value(areas: &[Area], store: &Store, place: &Place) -> Result<Option<Dec>, Abend>
    ensures { result ≡ place_value place.now (memory_of areas.now store.now) }
{
    let place = reached(areas, store, place)?;
    number_at(store, place.spot, place.form)
}

/// The value of an operand, or `None` where it is text.
#[cycle(reach)]
pub fn operand_value(areas: &[Area], store: &Store, operand: &Operand) -> Result<Option<Dec>, Abend>
    ensures { result ≡ operand_value operand.now (memory_of areas.now store.now) }
{
    match operand {
        Operand::Place(place) => place_value(areas, store, place),
        Operand::Number(number) => Ok(literal_value(number)),
        Operand::Text(_) => Ok(None),
        Operand::Figure(Figure::Zero) => Ok(Dec::new(0, 0)),
        Operand::Figure(_) => Ok(None),
    }
}

/// The value of an expression, or `None` where it has none. All its operands are read before
/// anything is computed.
#[cycle(reach)]
pub fn expr_value(areas: &[Area], store: &Store, expr: &Expr) -> Result<Option<Dec>, Abend>
    ensures { result ≡ expr_value expr.now (memory_of areas.now store.now) }
{
    match expr {
        Expr::Leaf(operand) => operand_value(areas, store, operand),
        Expr::Minus(operand) => {
            let value = expr_value(areas, store, operand.get())?;
            Ok(negated(value))
        }
        Expr::Both(op, left, right) => {
            let a = expr_value(areas, store, left.get())?;
            let b = expr_value(areas, store, right.get())?;
            Ok(calculated(*op, a, b))
        }
    }
}
