//! The terms of the largest condition or expression of statements. A count is at most the largest
//! `u32`.

ghost use Rattle.std.specs.Prelude.{◌≡◌, ◌-◌, ◌^◌, min};
ghost use Rattle.program_facts.specs.term_counts.Expression.{if_any, place_most, operand_most};
ghost use Rattle.program_facts.specs.term_counts.Statement.{stmt_most, arms_most, when_most, stmts_most, whens_most};

use crate::term_counts::condition::cond_terms;
use crate::term_counts::expression::{operand_most, operands_most, place_most, places_most};
use crate::term_counts::part::{calc_most, control_most, subject_most, targets_most, tests_most};
use cob_base::Items;
use cob_tree::{Arms, Operand, Place, Stmt, When};

/// The terms of the largest expression in a place, where there is one.
pub fn some_place_most(place: &Option<Place>) -> u32
    ensures { result ≡ min (if_any place_most place.now) (2 ^ 32 - 1) }
{
    match place {
        None => 0,
        Some(place) => place_most(place),
    }
}

fn some_operand_most(operand: &Option<Operand>) -> u32
    ensures { result ≡ min (if_any operand_most operand.now) (2 ^ 32 - 1) }
{
    match operand {
        None => 0,
        Some(operand) => operand_most(operand),
    }
}

#[cycle(most)]
fn stmt_most(stmt: &Stmt) -> u32
    ensures { result ≡ min (stmt_most stmt.now) (2 ^ 32 - 1) }
{
    match stmt {
        Stmt::Display { items, .. } => operands_most(items.as_slice()),
        Stmt::Move { from, to } => operand_most(from).max(places_most(to.as_slice())),
        Stmt::Arith { calc, into, arms } => {
            let own = calc_most(calc).max(targets_most(into.as_slice()));
            own.max(arms_most(arms))
        }
        Stmt::SetTrue(place) => place_most(place),
        Stmt::Read { into, arms, .. } => some_place_most(into).max(arms_most(arms)),
        Stmt::Write { from, .. } => some_operand_most(from),
        Stmt::Rewrite { from, .. } => some_operand_most(from),
        Stmt::If { cond, yes, no } => {
            let held = stmts_most(yes).max(stmts_most(no));
            cond_terms(cond).max(held)
        }
        Stmt::Evaluate {
            subject,
            whens,
            other,
        } => {
            let first = subject_most(subject).max(whens_most(whens));
            match other {
                None => first,
                Some(stmts) => first.max(stmts_most(stmts)),
            }
        }
        Stmt::Loop { control, body } => control_most(control).max(stmts_most(body)),
        Stmt::Perform { control, .. } => control_most(control),
        Stmt::GoDepending { on, .. } => place_most(on),
        _ => 0,
    }
}

#[cycle(most)]
fn arms_most(arms: &Arms) -> u32
    ensures { result ≡ min (arms_most arms.now) (2 ^ 32 - 1) }
{
    let first = match &arms.first {
        None => 0,
        Some(stmts) => stmts_most(stmts),
    };
    match &arms.second {
        None => first,
        Some(stmts) => first.max(stmts_most(stmts)),
    }
}

/// The terms of the largest condition or expression in statements.
#[cycle(most)]
pub fn stmts_most(stmts: &Items<Stmt>) -> u32
    ensures { result ≡ min (stmts_most stmts.now) (2 ^ 32 - 1) }
{
    let mut most = 0u32;
    for stmt in stmts.as_slice() {
        most = most.max(stmt_most(stmt));
    }
    most
}

#[cycle(most)]
fn when_most(when: &When) -> u32
    ensures { result ≡ min (when_most when.now) (2 ^ 32 - 1) }
{
    tests_most(when.tests.as_slice()).max(stmts_most(&when.stmts))
}

#[cycle(most)]
fn whens_most(whens: &Items<When>) -> u32
    ensures { result ≡ min (whens_most whens.now) (2 ^ 32 - 1) }
{
    let mut most = 0u32;
    for when in whens.as_slice() {
        most = most.max(when_most(when));
    }
    most
}
