//! Terms of expressions. A count is at most the largest `u32`.

ghost use Rattle.std.specs.Prelude.{◌≡◌, ◌-◌, ◌^◌, min};
ghost use Rattle.program_facts.specs.term_counts.Expression.{expr_terms, operand_terms, place_terms, window_terms, window_most, place_most, operand_most, places_most, operands_most};

use cob_tree::{Expr, Operand, Place, Window};

/// The terms of an expression.
#[cycle(terms)]
pub fn expr_terms(expr: &Expr) -> u32
    ensures { result ≡ min (expr_terms expr.now) (2 ^ 32 - 1) }
{
    match expr {
        Expr::Leaf(operand) => operand_terms(operand).saturating_add(1),
        Expr::Minus(inner) => expr_terms(inner.get()).saturating_add(1),
        Expr::Both(_, left, right) => {
            expr_terms(left.get()).saturating_add(expr_terms(right.get()))
        }
    }
}

#[cycle(terms)]
fn operand_terms(operand: &Operand) -> u32
    ensures { result ≡ min (operand_terms operand.now) (2 ^ 32 - 1) }
{
    match operand {
        Operand::Place(place) => place_terms(place),
        Operand::Number(_) => 0,
        Operand::Text(_) => 0,
        Operand::Figure(_) => 0,
    }
}

/// The terms that a place adds to the expression that holds it: those of its window.
#[cycle(terms)]
pub fn place_terms(place: &Place) -> u32
    ensures { result ≡ min (place_terms place.now) (2 ^ 32 - 1) }
{
    match &place.window {
        None => 0,
        Some(window) => window_terms(window.get()),
    }
}

#[cycle(terms)]
fn window_terms(window: &Window) -> u32
    ensures { result ≡ min (window_terms window.now) (2 ^ 32 - 1) }
{
    let from = expr_terms(&window.from);
    match &window.length {
        None => from,
        Some(length) => from.saturating_add(expr_terms(length)),
    }
}

/// The terms of the larger expression of a window that isn't in an expression.
fn window_most(window: &Window) -> u32
    ensures { result ≡ min (window_most window.now) (2 ^ 32 - 1) }
{
    let from = expr_terms(&window.from);
    match &window.length {
        None => from,
        Some(length) => from.max(expr_terms(length)),
    }
}

/// The terms of the largest expression in a place that isn't in an expression.
pub fn place_most(place: &Place) -> u32
    ensures { result ≡ min (place_most place.now) (2 ^ 32 - 1) }
{
    match &place.window {
        None => 0,
        Some(window) => window_most(window.get()),
    }
}

/// The terms of the largest expression in an operand.
pub fn operand_most(operand: &Operand) -> u32
    ensures { result ≡ min (operand_most operand.now) (2 ^ 32 - 1) }
{
    match operand {
        Operand::Place(place) => place_most(place),
        Operand::Number(_) => 0,
        Operand::Text(_) => 0,
        Operand::Figure(_) => 0,
    }
}

/// The terms of the largest expression in places.
pub fn places_most(places: &[Place]) -> u32
    ensures { result ≡ min (places_most places.now) (2 ^ 32 - 1) }
{
    let mut most = 0u32;
    for place in places {
        most = most.max(place_most(place));
    }
    most
}

/// The terms of the largest expression in operands.
pub fn operands_most(operands: &[Operand]) -> u32
    ensures { result ≡ min (operands_most operands.now) (2 ^ 32 - 1) }
{
    let mut most = 0u32;
    for operand in operands {
        most = most.max(operand_most(operand));
    }
    most
}
