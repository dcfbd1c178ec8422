//! ADD, SUBTRACT, MULTIPLY, DIVIDE and COMPUTE.

ghost use Rattle.std.specs.Prelude.{◌≡◌, ◌∷◌, [], false, Ok, option_copied};
ghost use Rattle.cob_tree.specs.declared.calc.Calc.TheVariants.{Add};
ghost use Rattle.cob_num.specs.Exact.{decimal, difference_of, product_of, sum_of};
ghost use Rattle.edit_fields.specs.Field.{digits_of};
ghost use Rattle.cob_store.specs.Area.{mask_at};
ghost use Rattle.cob_store.specs.Place.{memory_of, number_at};
ghost use Rattle.cob_store.specs.Store.{shown_at};
ghost use Rattle.meanings.specs.statements.Arithmetic.{basis_of, both, calculated, divided, edited_in, given, given_edited, kept_in, mask_part, part_of, stored_in, summed, targeted, value_for};
ghost use Rattle.cob_act.specs.Arithmetic.{seen_basis, seen_read};
ghost use Rattle.cob_act.specs.Moving.{outcome_of};

use cob_num::{Dec, Stored, add, mul, quotient, sub};
use cob_store::{
    Area, Form, Reached, Spot, Storage, Store, expr_value, kept, mask_at, number_at, operand_value,
    reached,
};
use cob_tree::{Abend, Calc, Operand, Place, Target};
use edit_fields::{Digits, Mask};

/// What is computed before the receivers: a value that each receiver gets, or one by which each is
/// changed.
#[derive(Clone, Copy)]
pub enum Basis {
    Given(Option<Dec>),
    Quotient {
        dividend: Option<Dec>,
        divisor: Option<Dec>,
    },
    Plus(Option<Dec>),
    Less(Option<Dec>),
    Times(Option<Dec>),
    Over(Option<Dec>),
}

fn sum(a: Option<Dec>, b: Option<Dec>) -> Option<Dec>
    ensures { result ≡ both sum_of a b }
{
    add(a?, b?)
}

fn difference(a: Option<Dec>, b: Option<Dec>) -> Option<Dec>
    ensures { result ≡ both difference_of a b }
{
    sub(a?, b?)
}

fn product(a: Option<Dec>, b: Option<Dec>) -> Option<Dec>
    ensures { result ≡ both product_of a b }
{
    mul(a?, b?)
}

// A quotient, with one decimal place more than the receiver has.
fn divided(part: u8, a: Option<Dec>, b: Option<Dec>) -> Option<Dec>
    ensures { result ≡ both (divided part) a b }
{
    let a = a?;
    let b = b?;
    if part <= 18 {
        quotient(a, b, part + 1)
    } else {
        None
    }
}

// The sum of operands, from the left; every operand is read.
fn summed(areas: &[Area], store: &Store, operands: &[Operand]) -> Result<Option<Dec>, Abend>
    ensures { result ≡ summed (memory_of areas.now store.now) operands.now }
{
    let Some((first, others)) = operands.split_first() else {
        return Ok(None);
    };
    let mut total = operand_value(areas, store, first)?;
    for operand in others {
        let value = operand_value(areas, store, operand)?;
        total = sum(total, value);
    }
    Ok(total)
}

fn basis_of(areas: &[Area], store: &Store, calc: &Calc) -> Result<Basis, Abend>
    ensures { seen_read result ≡ basis_of (memory_of areas.now store.now) calc.now }
{
    match calc {
        Calc::Add(operands) => {
            let total = summed(areas, store, operands.as_slice())?;
            Ok(Basis::Plus(total))
        }
        Calc::AddGiving(operands) => {
            let total = summed(areas, store, operands.as_slice())?;
            Ok(Basis::Given(total))
        }
        Calc::Subtract(operands) => {
            let total = summed(areas, store, operands.as_slice())?;
            Ok(Basis::Less(total))
        }
        Calc::SubtractGiving(operands, from) => {
            let total = summed(areas, store, operands.as_slice())?;
            let value = operand_value(areas, store, from)?;
            Ok(Basis::Given(difference(value, total)))
        }
        Calc::Multiply(by) => {
            let value = operand_value(areas, store, by)?;
            Ok(Basis::Times(value))
        }
        Calc::MultiplyGiving(a, b) => {
            let first = operand_value(areas, store, a)?;
            let second = operand_value(areas, store, b)?;
            Ok(Basis::Given(product(first, second)))
        }
        Calc::Divide(by) => {
            let value = operand_value(areas, store, by)?;
            Ok(Basis::Over(value))
        }
        Calc::DivideGiving(by, a) => {
            let divisor = operand_value(areas, store, by)?;
            let dividend = operand_value(areas, store, a)?;
            Ok(Basis::Quotient { dividend, divisor })
        }
        Calc::Compute(expr) => {
            let value = expr_value(areas, store, expr)?;
            Ok(Basis::Given(value))
        }
    }
}

fn mask_part(mask: Option<&Mask>) -> u8
    ensures { result ≡ mask_part (option_copied mask.entry) }
{
    match mask {
        None => 0,
        Some(mask) => mask.digits().part,
    }
}

fn part_of(areas: &[Area], item: u32, form: Form) -> u8
    ensures { result ≡ part_of (mask_at areas.now item) form }
{
    match form {
        Form::Number { part, .. } => part,
        Form::Edited => mask_part(mask_at(areas, item)),
        Form::Group => 0,
        Form::Text => 0,
    }
}

// The value for a receiver, a place of that item.
fn value_for(
    areas: &[Area],
    store: &Store,
    item: u32,
    place: Reached,
    basis: Basis,
) -> Result<Option<Dec>, Abend>
    ensures { result ≡ value_for (part_of (mask_at areas.now item) place.form)
        (number_at store.now place.spot place.form) (seen_basis basis) }
{
    match basis {
        Basis::Given(value) => Ok(value),
        Basis::Quotient { dividend, divisor } => {
            Ok(divided(part_of(areas, item, place.form), dividend, divisor))
        }
        Basis::Plus(value) => {
            let old = number_at(store, place.spot, place.form)?;
            Ok(sum(old, value))
        }
        Basis::Less(value) => {
            let old = number_at(store, place.spot, place.form)?;
            Ok(difference(old, value))
        }
        Basis::Times(value) => {
            let old = number_at(store, place.spot, place.form)?;
            Ok(product(old, value))
        }
        Basis::Over(value) => {
            let old = number_at(store, place.spot, place.form)?;
            Ok(divided(part_of(areas, item, place.form), old, value))
        }
    }
}

// Stores a value in a receiver, and says whether it had a size error; under a SIZE phrase it then
// keeps its value.
fn stored_in(
    store: &mut Store,
    guarded: bool,
    spot: Spot,
    signed: bool,
    storage: Storage,
    stored: Stored,
) -> bool
    ensures { outcome_of store.new (Ok result)
        ≡ stored_in guarded store.old spot signed storage stored }
{
    if stored.size_error && guarded {
        return true;
    }
    store.put_number(
        spot,
        signed,
        storage,
        stored.value < 0,
        stored.value.unsigned_abs(),
    );
    stored.size_error
}

// The number that an edited receiver keeps, in units of the mask's last decimal place.
fn shown_number(stored: Stored, mask: &Mask) -> Option<Dec>
    ensures { result ≡ decimal stored.value (digits_of mask.now).part }
{
    Dec::new(stored.value, mask.digits().part)
}

fn put_shown(store: &mut Store, spot: Spot, mask: &Mask, number: Option<Dec>)
    ensures { store.new ≡ shown_at store.old spot mask.now number }
{
    match number {
        None => {}
        Some(number) => store.put_edited(spot, mask, number),
    }
}

// The same for an edited receiver.
fn edited_in(store: &mut Store, guarded: bool, spot: Spot, mask: &Mask, stored: Stored) -> bool
    ensures { outcome_of store.new (Ok result)
        ≡ edited_in guarded store.old spot mask.now stored }
{
    if stored.size_error && guarded {
        return true;
    }
    put_shown(store, spot, mask, shown_number(stored, mask));
    stored.size_error
}

fn kept_in(digits: Digits, rounded: bool, value: Option<Dec>) -> Option<Stored>
    ensures { result ≡ kept_in digits rounded value }
{
    kept(value?, digits.whole, digits.part, rounded)
}

fn given_edited(
    store: &mut Store,
    mask: Option<&Mask>,
    guarded: bool,
    spot: Spot,
    rounded: bool,
    value: Option<Dec>,
) -> bool
    ensures { outcome_of store.new (Ok result)
        ≡ given_edited (option_copied mask.entry) guarded store.old spot rounded value }
{
    let Some(mask) = mask else {
        return true;
    };
    match kept_in(mask.digits(), rounded, value) {
        None => true,
        Some(stored) => edited_in(store, guarded, spot, mask, stored),
    }
}

// Stores a value, where there is one, in a place of that item; a receiver that gets none keeps its
// value, and had a size error.
fn given(
    areas: &[Area],
    store: &mut Store,
    guarded: bool,
    item: u32,
    place: Reached,
    rounded: bool,
    value: Option<Dec>,
) -> bool
    ensures { outcome_of store.new (Ok result)
        ≡ given (mask_at areas.now item) guarded store.old place.spot place.form rounded value }
{
    let spot = place.spot;
    match place.form {
        Form::Edited => { given_edited(store, mask_at(areas, item), guarded, spot, rounded, value) }
        Form::Number {
            signed,
            whole,
            part,
            storage,
        } => {
            let Some(number) = value else {
                return true;
            };
            match kept(number, whole, part, rounded) {
                None => true,
                Some(stored) => stored_in(store, guarded, spot, signed, storage, stored),
            }
        }
        Form::Group => true,
        Form::Text => true,
    }
}

fn targeted_at(
    areas: &[Area],
    store: &mut Store,
    guarded: bool,
    basis: Basis,
    place: &Place,
    rounded: bool,
) -> Result<bool, Abend>
    ensures { outcome_of store.new result
        ≡ targeted areas.now guarded (seen_basis basis) store.old
        (record { place = place.now; rounded = rounded }) }
{
    let item = place.item;
    let place = reached(areas, store, place)?;
    let value = value_for(areas, store, item, place, basis)?;
    Ok(given(areas, store, guarded, item, place, rounded, value))
}

fn targeted(
    areas: &[Area],
    store: &mut Store,
    guarded: bool,
    basis: Basis,
    target: &Target,
) -> Result<bool, Abend>
    ensures { outcome_of store.new result
        ≡ targeted areas.now guarded (seen_basis basis) store.old target.now }
{
    targeted_at(areas, store, guarded, basis, &target.place, target.rounded)
}

/// ADD of one operand to one item, without a SIZE phrase: the ADD of VARYING. It says whether there
/// was a size error; the error is why the run ends.
pub fn added(
    areas: &[Area],
    store: &mut Store,
    operand: &Operand,
    place: &Place,
) -> Result<bool, Abend>
    ensures { outcome_of store.new result
        ≡ calculated areas.now (Add (operand.now ∷ [])) false
        (record { place = place.now; rounded = false } ∷ []) store.old }
{
    let value = operand_value(areas, store, operand)?;
    targeted_at(areas, store, false, Basis::Plus(value), place, false)
}

/// Does an arithmetic statement, and says whether a receiver had a size error. `guarded` says that
/// there is a SIZE phrase. The error is why the run ends.
pub fn calculated(
    areas: &[Area],
    store: &mut Store,
    calc: &Calc,
    guarded: bool,
    targets: &[Target],
) -> Result<bool, Abend>
    ensures { outcome_of store.new result
        ≡ calculated areas.now calc.now guarded targets.now store.old }
{
    let basis = basis_of(areas, store, calc)?;
    let mut failed = false;
    for target in targets {
        let error = targeted(areas, store, guarded, basis, target)?;
        failed = failed || error;
    }
    Ok(failed)
}
