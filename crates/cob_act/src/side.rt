//! The two sides of a comparison.

ghost use Rattle.std.specs.Prelude.{◌≡◌};
ghost use Rattle.cob_store.specs.Place.{memory_of};
ghost use Rattle.meanings.specs.statements.Side.{bytes_compared, compared, expr_side, filler_of, is_numeric, numbers_compared, operand_side, side_bytes, texts_compared, place_side, side_number, valued};
ghost use Rattle.cob_act.specs.Side.{seen, seen_answer};

use crate::text::{byte_order, filler_order, literal_order, order_filler, text_order};
use cob_num::{Dec, compare};
use cob_store::{
    Area, Form, Storage, Store, expr_value, figure_byte, literal_value, number_in, number_of,
    reached,
};
use cob_tree::{Abend, Expr, Figure, Number, Operand, Place};
use std::cmp::Ordering;

/// A side as it was read. A number item is decoded only where it is compared as a number.
#[derive(Clone, Copy)]
pub enum ComparedSide<'a> {
    Amount(Dec),
    Literal(&'a Number),
    Item {
        signed: bool,
        part: u8,
        storage: Storage,
        bytes: &'a [u8],
    },
    /// ZERO, which is a number, and is repeated where it is compared with text.
    Nought,
    Bytes(&'a [u8]),
    /// Any other figure.
    Filler(u8),
}

/// The value, or OutOfRange where there is none.
pub fn valued(value: Option<Dec>) -> Result<Dec, Abend>
    ensures { result ≡ valued value }
{
    match value {
        None => Err(Abend::OutOfRange),
        Some(number) => Ok(number),
    }
}

/// A place as a side of a comparison.
pub fn place_side<'a>(
    areas: &[Area],
    store: &'a Store,
    place: &Place,
) -> Result<ComparedSide<'a>, Abend>
    ensures { seen_answer result ≡ place_side (memory_of areas.now store.now) place.now }
{
    let place = reached(areas, store, place)?;
    let bytes = store.bytes(place.spot);
    match place.form {
        Form::Number {
            signed,
            part,
            storage,
            ..
        } => Ok(ComparedSide::Item {
            signed,
            part,
            storage,
            bytes,
        }),
        Form::Group => Ok(ComparedSide::Bytes(bytes)),
        Form::Edited => Ok(ComparedSide::Bytes(bytes)),
        Form::Text => Ok(ComparedSide::Bytes(bytes)),
    }
}

/// An operand as a side of a comparison.
pub fn operand_side<'a>(
    areas: &[Area],
    store: &'a Store,
    operand: &'a Operand,
) -> Result<ComparedSide<'a>, Abend>
    ensures { seen_answer result ≡ operand_side (memory_of areas.now store.now) operand.now }
{
    match operand {
        Operand::Place(place) => place_side(areas, store, place),
        Operand::Number(number) => Ok(ComparedSide::Literal(number)),
        Operand::Text(text) => Ok(ComparedSide::Bytes(text.as_slice())),
        Operand::Figure(Figure::Zero) => Ok(ComparedSide::Nought),
        Operand::Figure(figure) => Ok(ComparedSide::Filler(figure_byte(*figure))),
    }
}

/// An expression as a side of a comparison.
pub fn expr_side<'a>(
    areas: &[Area],
    store: &'a Store,
    expr: &'a Expr,
) -> Result<ComparedSide<'a>, Abend>
    ensures { seen_answer result ≡ expr_side (memory_of areas.now store.now) expr.now }
{
    match expr {
        Expr::Leaf(operand) => operand_side(areas, store, operand),
        _ => {
            let value = expr_value(areas, store, expr)?;
            let number = valued(value)?;
            Ok(ComparedSide::Amount(number))
        }
    }
}

fn is_numeric(side: ComparedSide) -> bool
    ensures { result ≡ is_numeric (seen side.entry) }
{
    match side {
        ComparedSide::Bytes(_) => false,
        ComparedSide::Filler(_) => false,
        _ => true,
    }
}

fn side_number(side: ComparedSide) -> Result<Dec, Abend>
    ensures { result ≡ side_number (seen side.entry) }
{
    match side {
        ComparedSide::Amount(number) => Ok(number),
        ComparedSide::Literal(number) => valued(literal_value(number)),
        ComparedSide::Item {
            signed,
            part,
            storage,
            bytes,
        } => number_of(number_in(signed, storage, bytes), part),
        ComparedSide::Nought => valued(Dec::new(0, 0)),
        _ => Err(Abend::OutOfRange),
    }
}

fn filler_of(side: ComparedSide) -> Option<u8>
    ensures { result ≡ filler_of (seen side.entry) }
{
    match side {
        ComparedSide::Nought => Some(b'0'),
        ComparedSide::Filler(byte) => Some(byte),
        _ => None,
    }
}

fn numbers_compared(a: ComparedSide, b: ComparedSide) -> Result<Ordering, Abend>
    ensures { result ≡ numbers_compared (seen a.entry) (seen b.entry) }
{
    let first = side_number(a)?;
    let second = side_number(b)?;
    Ok(compare(first, second))
}

/// The bytes of a side that is compared by bytes.
pub fn side_bytes<'a>(side: ComparedSide<'a>) -> &'a [u8]
    ensures { result.now ≡ side_bytes (seen side.entry) }
{
    match side {
        ComparedSide::Literal(number) => number.digits.as_slice(),
        ComparedSide::Item { bytes, .. } => bytes,
        ComparedSide::Bytes(bytes) => bytes,
        _ => &[],
    }
}

fn texts_compared(a: ComparedSide, b: ComparedSide) -> Ordering
    ensures { result ≡ texts_compared (seen a.entry) (seen b.entry) }
{
    if let ComparedSide::Literal(number) = a {
        return literal_order(number, side_bytes(b));
    }
    if let ComparedSide::Literal(number) = b {
        return literal_order(number, side_bytes(a)).reverse();
    }
    text_order(side_bytes(a), side_bytes(b))
}

fn bytes_compared(a: ComparedSide, b: ComparedSide) -> Ordering
    ensures { result ≡ bytes_compared (seen a.entry) (seen b.entry) }
{
    match filler_of(a) {
        None => match filler_of(b) {
            None => texts_compared(a, b),
            Some(byte) => order_filler(side_bytes(a), byte),
        },
        Some(first) => match filler_of(b) {
            None => filler_order(first, side_bytes(b)),
            Some(second) => byte_order(first, second),
        },
    }
}

/// The order of two sides: by value where both are numbers, otherwise by bytes.
pub fn compared(a: ComparedSide, b: ComparedSide) -> Result<Ordering, Abend>
    ensures { result ≡ compared (seen a.entry) (seen b.entry) }
{
    if is_numeric(a) && is_numeric(b) {
        numbers_compared(a, b)
    } else {
        Ok(bytes_compared(a, b))
    }
}
