//! Places, and those in their subscripts and windows.

ghost use Rattle.std.specs.Prelude.{◌≡◌};

use cob_base::NoMemory;
use cob_store::{Area, Store, know};
use cob_tree::{Expr, Operand, Place, Sub, Window};

/// Keeps the spots of a place, and of those within it.
#[cycle(know_place)]
pub fn know_place(areas: &mut [Area], store: &Store, place: &Place) -> Result<(), NoMemory>
    ensures { areas.new ≡ areas.old }
{
    know(areas, store, place)?;
    know_subs(areas, store, place.subs.as_slice())?;
    match &place.window {
        None => Ok(()),
        Some(window) => know_window(areas, store, window.get()),
    }
}

#[cycle(know_place)]
fn know_subs(areas: &mut [Area], store: &Store, subs: &[Sub]) -> Result<(), NoMemory>
    ensures { areas.new ≡ areas.old }
{
    for sub in subs {
        know_sub(areas, store, sub)?;
    }
    Ok(())
}

#[cycle(know_place)]
fn know_sub(areas: &mut [Area], store: &Store, sub: &Sub) -> Result<(), NoMemory>
    ensures { areas.new ≡ areas.old }
{
    match &sub.base {
        None => Ok(()),
        Some(base) => know_place(areas, store, base.get()),
    }
}

#[cycle(know_place)]
fn know_window(areas: &mut [Area], store: &Store, window: &Window) -> Result<(), NoMemory>
    ensures { areas.new ≡ areas.old }
{
    know_expr(areas, store, &window.from)?;
    match &window.length {
        None => Ok(()),
        Some(length) => know_expr(areas, store, length),
    }
}

/// Keeps the spots of the places in an operand.
#[cycle(know_place)]
pub fn know_operand(areas: &mut [Area], store: &Store, operand: &Operand) -> Result<(), NoMemory>
    ensures { areas.new ≡ areas.old }
{
    match operand {
        Operand::Place(place) => know_place(areas, store, place),
        Operand::Number(_) => Ok(()),
        Operand::Text(_) => Ok(()),
        Operand::Figure(_) => Ok(()),
    }
}

/// Keeps the spots of the places in an expression.
#[cycle(know_place)]
pub fn know_expr(areas: &mut [Area], store: &Store, expr: &Expr) -> Result<(), NoMemory>
    ensures { areas.new ≡ areas.old }
{
    match expr {
        Expr::Leaf(operand) => know_operand(areas, store, operand),
        Expr::Minus(inner) => know_expr(areas, store, inner.get()),
        Expr::Both(_, left, right) => {
            know_expr(areas, store, left.get())?;
            know_expr(areas, store, right.get())
        }
    }
}

/// Keeps the spots of a place, where there is one, and of those within it.
pub fn know_any(areas: &mut [Area], store: &Store, place: &Option<Place>) -> Result<(), NoMemory>
    ensures { areas.new ≡ areas.old }
{
    match place {
        None => Ok(()),
        Some(place) => know_place(areas, store, place),
    }
}

/// Keeps the spots of places, and of those within them.
pub fn know_places(areas: &mut [Area], store: &Store, places: &[Place]) -> Result<(), NoMemory>
    ensures { areas.new ≡ areas.old }
{
    for place in places {
        know_place(areas, store, place)?;
    }
    Ok(())
}

/// Keeps the spots of the places in operands.
pub fn know_operands(
    areas: &mut [Area],
    store: &Store,
    operands: &[Operand],
) -> Result<(), NoMemory>
    ensures { areas.new ≡ areas.old }
{
    for operand in operands {
        know_operand(areas, store, operand)?;
    }
    Ok(())
}
