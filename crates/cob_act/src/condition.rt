//! Conditions.

ghost use Rattle.std.specs.Prelude.{◌≡◌, option_copied, slice_get};
ghost use Rattle.std.specs.List.{list_all};
ghost use Rattle.cob_tree.specs.Digits.{is_digit};
ghost use Rattle.cob_store.specs.Place.{memory_of};
ghost use Rattle.meanings.specs.statements.Condition.{has_sign, holds, in_span, in_spans, is_alphabetic, is_number, is_of_class, named, rel_holds, relation, spans_of, turned};
ghost use Rattle.cob_act.specs.Side.{seen};

use crate::side::{
    ComparedSide, compared, expr_side, operand_side, place_side, side_bytes, valued,
};
use crate::text::is_letter;
use cob_num::Dec;
use cob_store::{Area, Store, expr_value, number_in};
use cob_tree::{
    Abend, ClassKind, Cond, Entry, Expr, Operand, Place, Rel, SignKind, Span, is_digit,
};
use std::cmp::Ordering;

fn rel_holds(rel: Rel, order: Ordering) -> bool
    ensures { result ≡ rel_holds rel order }
{
    match rel {
        Rel::Equal => order.is_eq(),
        Rel::NotEqual => order.is_ne(),
        Rel::Less => order.is_lt(),
        Rel::Greater => order.is_gt(),
        Rel::LessEqual => order.is_le(),
        Rel::GreaterEqual => order.is_ge(),
    }
}

fn relation(
    areas: &[Area],
    store: &Store,
    left: &Expr,
    rel: Rel,
    right: &Expr,
) -> Result<bool, Abend>
    ensures { result ≡ relation (memory_of areas.now store.now) left.now rel right.now }
{
    let a = expr_side(areas, store, left)?;
    let b = expr_side(areas, store, right)?;
    let order = compared(a, b)?;
    Ok(rel_holds(rel, order))
}

fn are_digits(bytes: &[u8]) -> bool
    ensures { result ≡ list_all is_digit bytes.now }
{
    bytes.iter().all(|byte| is_digit(*byte))
}

fn is_number(side: ComparedSide) -> bool
    ensures { result ≡ is_number (seen side.entry) }
{
    match side {
        ComparedSide::Item {
            signed,
            storage,
            bytes,
            ..
        } => number_in(signed, storage, bytes).is_some(),
        ComparedSide::Amount(_) => are_digits(side_bytes(side)),
        ComparedSide::Literal(_) => are_digits(side_bytes(side)),
        ComparedSide::Nought => are_digits(side_bytes(side)),
        ComparedSide::Bytes(bytes) => are_digits(bytes),
        ComparedSide::Filler(_) => are_digits(side_bytes(side)),
    }
}

fn is_alphabetic(side: ComparedSide) -> bool
    ensures { result ≡ is_alphabetic (seen side.entry) }
{
    side_bytes(side)
        .iter()
        .all(|byte| *byte == b' ' || is_letter(*byte))
}

fn is_of_class(kind: ClassKind, side: ComparedSide) -> bool
    ensures { result ≡ is_of_class kind (seen side.entry) }
{
    match kind {
        ClassKind::Numeric => is_number(side),
        ClassKind::Alphabetic => is_alphabetic(side),
    }
}

fn has_sign(kind: SignKind, number: Dec) -> bool
    ensures { result ≡ has_sign kind number }
{
    match kind {
        SignKind::Positive => number.value > 0,
        SignKind::Negative => number.value < 0,
        SignKind::Zero => number.value == 0,
    }
}

/// A test, negated where `turn` says so.
pub fn turned(turn: bool, test: bool) -> bool
    ensures { result ≡ turned turn test }
{
    if turn { !test } else { test }
}

// Both ends are read before anything is compared.
fn in_span(
    areas: &[Area],
    store: &Store,
    side: ComparedSide,
    from: &Operand,
    to: &Option<Operand>,
) -> Result<bool, Abend>
    ensures { result ≡ in_span (memory_of areas.now store.now) (seen side.entry) from.now to.now }
{
    let low = operand_side(areas, store, from)?;
    match to {
        None => {
            let order = compared(side, low)?;
            Ok(order.is_eq())
        }
        Some(to) => {
            let high = operand_side(areas, store, to)?;
            let order = compared(side, low)?;
            if order.is_ge() {
                let upper = compared(side, high)?;
                Ok(upper.is_le())
            } else {
                Ok(false)
            }
        }
    }
}

fn in_spans(
    areas: &[Area],
    store: &Store,
    side: ComparedSide,
    spans: &[Span],
) -> Result<bool, Abend>
    ensures { result ≡ in_spans (memory_of areas.now store.now) (seen side.entry) spans.now }
{
    for span in spans {
        let test = in_span(areas, store, side, &span.from, &span.to)?;
        if test {
            return Ok(true);
        }
    }
    Ok(false)
}

fn entry_at(entries: &[Entry], item: u32) -> Option<&Entry>
    ensures { option_copied result ≡ slice_get entries.now item }
{
    entries.get(item as usize)
}

/// The values of a level 88.
pub fn spans_at(entries: &[Entry], item: u32) -> &[Span]
    ensures { result.now ≡ spans_of (slice_get entries.now item) }
{
    match entry_at(entries, item) {
        None => &[],
        Some(entry) => entry.ranges.as_slice(),
    }
}

// Whether the item of a level 88 has one of its values.
fn named(entries: &[Entry], areas: &[Area], store: &Store, place: &Place) -> Result<bool, Abend>
    ensures { result ≡ named entries.now (memory_of areas.now store.now) place.now }
{
    let side = place_side(areas, store, place)?;
    in_spans(areas, store, side, spans_at(entries, place.item))
}

/// Whether a condition holds. The right side of AND and OR is tested only where it is needed. The
/// error is why the run ends.
pub fn holds(entries: &[Entry], areas: &[Area], store: &Store, cond: &Cond) -> Result<bool, Abend>
    ensures { result ≡ holds cond.now entries.now (memory_of areas.now store.now) }
{
    match cond {
        Cond::Relation(left, rel, right) => relation(areas, store, left, *rel, right),
        Cond::Class(place, kind, turn) => {
            let side = place_side(areas, store, place)?;
            Ok(turned(*turn, is_of_class(*kind, side)))
        }
        Cond::SignIs(expr, kind, turn) => {
            let value = expr_value(areas, store, expr)?;
            let number = valued(value)?;
            Ok(turned(*turn, has_sign(*kind, number)))
        }
        Cond::Named(place) => named(entries, areas, store, place),
        Cond::Not(cond) => {
            let test = holds(entries, areas, store, cond.get())?;
            Ok(!test)
        }
        Cond::And(left, right) => {
            let test = holds(entries, areas, store, left.get())?;
            if test {
                holds(entries, areas, store, right.get())
            } else {
                Ok(false)
            }
        }
        Cond::Or(left, right) => {
            let test = holds(entries, areas, store, left.get())?;
            if test {
                Ok(true)
            } else {
                holds(entries, areas, store, right.get())
            }
        }
    }
}
