//! Places in conditions, controls and choices.

ghost use Rattle.std.specs.Prelude.{◌≡◌};

use crate::constant_places::places::{know_expr, know_operand, know_place};
use cob_base::NoMemory;
use cob_store::{Area, Store};
use cob_tree::{Cond, Control, Subject, Test};

/// Keeps the spots of the places in a condition.
#[cycle(know_cond)]
pub fn know_cond(areas: &mut [Area], store: &Store, cond: &Cond) -> Result<(), NoMemory>
    ensures { areas.new ≡ areas.old }
{
    match cond {
        Cond::Relation(left, _, right) => {
            know_expr(areas, store, left)?;
            know_expr(areas, store, right)
        }
        Cond::Class(place, _, _) => know_place(areas, store, place),
        Cond::SignIs(expr, _, _) => know_expr(areas, store, expr),
        Cond::Named(place) => know_place(areas, store, place),
        Cond::Not(inner) => know_cond(areas, store, inner.get()),
        Cond::And(left, right) => {
            know_cond(areas, store, left.get())?;
            know_cond(areas, store, right.get())
        }
        Cond::Or(left, right) => {
            know_cond(areas, store, left.get())?;
            know_cond(areas, store, right.get())
        }
    }
}

/// Keeps the spots of the places in the control of a PERFORM.
pub fn know_control(areas: &mut [Area], store: &Store, control: &Control) -> Result<(), NoMemory>
    ensures { areas.new ≡ areas.old }
{
    match control {
        Control::Once => Ok(()),
        Control::Times(count) => know_operand(areas, store, count),
        Control::Until { cond, .. } => know_cond(areas, store, cond),
        Control::Varying {
            item,
            from,
            by,
            cond,
            ..
        } => {
            know_place(areas, store, item.get())?;
            know_operand(areas, store, from.get())?;
            know_operand(areas, store, by.get())?;
            know_cond(areas, store, cond)
        }
    }
}

/// Keeps the spots of the places in the subject of EVALUATE.
pub fn know_subject(areas: &mut [Area], store: &Store, subject: &Subject) -> Result<(), NoMemory>
    ensures { areas.new ≡ areas.old }
{
    match subject {
        Subject::True => Ok(()),
        Subject::False => Ok(()),
        Subject::Value(expr) => know_expr(areas, store, expr),
    }
}

fn know_test(areas: &mut [Area], store: &Store, test: &Test) -> Result<(), NoMemory>
    ensures { areas.new ≡ areas.old }
{
    match test {
        Test::Any => Ok(()),
        Test::Holds(cond) => know_cond(areas, store, cond),
        Test::Value { from, to, .. } => {
            know_expr(areas, store, from)?;
            match to {
                None => Ok(()),
                Some(to) => know_expr(areas, store, to),
            }
        }
    }
}

/// Keeps the spots of the places in tests of WHEN.
pub fn know_tests(areas: &mut [Area], store: &Store, tests: &[Test]) -> Result<(), NoMemory>
    ensures { areas.new ≡ areas.old }
{
    for test in tests {
        know_test(areas, store, test)?;
    }
    Ok(())
}
