//! Which arm IF and EVALUATE take.

ghost use Rattle.std.specs.Prelude.{◌≡◌, map};
ghost use Rattle.cob_tree.specs.declared.stmt.When.{out-When};
ghost use Rattle.cob_store.specs.Place.{memory_of};
ghost use Rattle.meanings.specs.statements.Choice.{asked, evaluated, if_chosen, in_range, one_holds, same_truth, test_holds};
ghost use Rattle.cob_act.specs.Choice.{seen_asked, seen_subject};
ghost use Rattle.cob_act.specs.Side.{seen};

use crate::condition::{holds, turned};
use crate::side::{ComparedSide, compared, expr_side};
use cob_store::{Area, Store};
use cob_tree::{Abend, Cond, Entry, Expr, Subject, Test, When};

/// The arm of IF, from 1. The error is why the run ends.
pub fn if_chosen(
    entries: &[Entry],
    areas: &[Area],
    store: &Store,
    cond: &Cond,
) -> Result<usize, Abend>
    ensures { result ≡ if_chosen entries.now (memory_of areas.now store.now) cond.now }
{
    let test = holds(entries, areas, store, cond)?;
    Ok(if test { 1 } else { 2 })
}

/// The subject of EVALUATE as it was read.
#[derive(Clone, Copy)]
pub enum Asked<'a> {
    Truth(bool),
    Beside(ComparedSide<'a>),
}

fn subject_read<'a>(
    areas: &[Area],
    store: &'a Store,
    subject: &'a Subject,
) -> Result<Asked<'a>, Abend>
    ensures { seen_subject result ≡ asked (memory_of areas.now store.now) subject.now }
{
    match subject {
        Subject::True => Ok(Asked::Truth(true)),
        Subject::False => Ok(Asked::Truth(false)),
        Subject::Value(expr) => {
            let side = expr_side(areas, store, expr)?;
            Ok(Asked::Beside(side))
        }
    }
}

// Both ends are read before anything is compared.
fn in_range(
    areas: &[Area],
    store: &Store,
    side: ComparedSide,
    from: &Expr,
    to: &Option<Expr>,
) -> Result<bool, Abend>
    ensures { result
        ≡ in_range (memory_of areas.now store.now) (seen side.entry) from.now to.now }
{
    let low = expr_side(areas, store, from)?;
    match to {
        None => {
            let order = compared(side, low)?;
            Ok(order.is_eq())
        }
        Some(to) => {
            let high = expr_side(areas, store, to)?;
            let order = compared(side, low)?;
            if order.is_ge() {
                let upper = compared(side, high)?;
                Ok(upper.is_le())
            } else {
                Ok(false)
            }
        }
    }
}

fn same_truth(truth: bool, test: bool) -> bool
    ensures { result ≡ same_truth truth test }
{
    if truth { test } else { !test }
}

fn test_holds(
    entries: &[Entry],
    areas: &[Area],
    store: &Store,
    subject: Asked,
    test: &Test,
) -> Result<bool, Abend>
    ensures { result
        ≡ test_holds entries.now (memory_of areas.now store.now) (seen_asked subject.entry)
        test.now }
{
    match test {
        Test::Any => Ok(true),
        Test::Holds(cond) => match subject {
            Asked::Truth(truth) => {
                let test = holds(entries, areas, store, cond)?;
                Ok(same_truth(truth, test))
            }
            Asked::Beside(_) => Ok(false),
        },
        Test::Value { not, from, to } => match subject {
            Asked::Truth(_) => Ok(false),
            Asked::Beside(side) => {
                let test = in_range(areas, store, side, from, to)?;
                Ok(turned(*not, test))
            }
        },
    }
}

fn one_holds(
    entries: &[Entry],
    areas: &[Area],
    store: &Store,
    subject: Asked,
    tests: &[Test],
) -> Result<bool, Abend>
    ensures { result
        ≡ one_holds entries.now (memory_of areas.now store.now) (seen_asked subject.entry)
        tests.now }
{
    for test in tests {
        let here = test_holds(entries, areas, store, subject, test)?;
        if here {
            return Ok(true);
        }
    }
    Ok(false)
}

/// The arm of EVALUATE, from 1: the first WHEN of which a test holds, or the number after the last.
/// The error is why the run ends.
pub fn evaluated(
    entries: &[Entry],
    areas: &[Area],
    store: &Store,
    subject: &Subject,
    whens: &[When],
) -> Result<usize, Abend>
    ensures { result
        ≡ evaluated entries.now (memory_of areas.now store.now) subject.now
        (map (λ when. (out-When when).tests) whens.now) }
{
    let subject = subject_read(areas, store, subject)?;
    let mut number = 1usize;
    for when in whens {
        let here = one_holds(entries, areas, store, subject, when.tests.as_slice())?;
        if here {
            return Ok(number);
        }
        number += 1;
    }
    Ok(number)
}
