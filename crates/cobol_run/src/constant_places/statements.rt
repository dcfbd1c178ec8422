//! Places in statements, nested ones included.

ghost use Rattle.std.specs.Prelude.{◌≡◌};

use crate::constant_places::conditions::{know_cond, know_control, know_subject, know_tests};
use crate::constant_places::places::{
    know_any, know_expr, know_operand, know_operands, know_place, know_places,
};
use cob_base::NoMemory;
use cob_store::{Area, Store};
use cob_tree::{Arms, Calc, Operand, Stmt, Target, When};

fn know_calc(areas: &mut [Area], store: &Store, calc: &Calc) -> Result<(), NoMemory>
    ensures { areas.new ≡ areas.old }
{
    match calc {
        Calc::Add(parts) => know_operands(areas, store, parts.as_slice()),
        Calc::AddGiving(parts) => know_operands(areas, store, parts.as_slice()),
        Calc::Subtract(parts) => know_operands(areas, store, parts.as_slice()),
        Calc::SubtractGiving(parts, from) => {
            know_operands(areas, store, parts.as_slice())?;
            know_operand(areas, store, from)
        }
        Calc::Multiply(by) => know_operand(areas, store, by),
        Calc::MultiplyGiving(one, by) => {
            know_operand(areas, store, one)?;
            know_operand(areas, store, by)
        }
        Calc::Divide(by) => know_operand(areas, store, by),
        Calc::DivideGiving(by, into) => {
            know_operand(areas, store, by)?;
            know_operand(areas, store, into)
        }
        Calc::Compute(expr) => know_expr(areas, store, expr),
    }
}

fn know_targets(areas: &mut [Area], store: &Store, targets: &[Target]) -> Result<(), NoMemory>
    ensures { areas.new ≡ areas.old }
{
    for target in targets {
        know_place(areas, store, &target.place)?;
    }
    Ok(())
}

fn know_sent(areas: &mut [Area], store: &Store, from: &Option<Operand>) -> Result<(), NoMemory>
    ensures { areas.new ≡ areas.old }
{
    match from {
        None => Ok(()),
        Some(from) => know_operand(areas, store, from),
    }
}

#[cycle(know_stmt)]
fn know_stmt(areas: &mut [Area], store: &Store, stmt: &Stmt) -> Result<(), NoMemory>
    ensures { areas.new ≡ areas.old }
{
    match stmt {
        Stmt::Display { items, .. } => know_operands(areas, store, items.as_slice()),
        Stmt::Move { from, to } => {
            know_operand(areas, store, from)?;
            know_places(areas, store, to.as_slice())
        }
        Stmt::Arith { calc, into, arms } => {
            know_calc(areas, store, calc)?;
            know_targets(areas, store, into.as_slice())?;
            know_arms(areas, store, arms)
        }
        Stmt::SetTrue(place) => know_place(areas, store, place),
        Stmt::Read { into, arms, .. } => {
            know_any(areas, store, into)?;
            know_arms(areas, store, arms)
        }
        Stmt::Write { from, .. } => know_sent(areas, store, from),
        Stmt::Rewrite { from, .. } => know_sent(areas, store, from),
        _ => know_branch(areas, store, stmt),
    }
}

// Keeps the spots of the places in a statement that chooses, repeats or jumps.
#[cycle(know_stmt)]
fn know_branch(areas: &mut [Area], store: &Store, stmt: &Stmt) -> Result<(), NoMemory>
    ensures { areas.new ≡ areas.old }
{
    match stmt {
        Stmt::If { cond, yes, no } => {
            know_cond(areas, store, cond)?;
            know_stmts(areas, store, yes.as_slice())?;
            know_stmts(areas, store, no.as_slice())
        }
        Stmt::Evaluate {
            subject,
            whens,
            other,
        } => {
            know_subject(areas, store, subject)?;
            know_whens(areas, store, whens.as_slice())?;
            match other {
                None => Ok(()),
                Some(stmts) => know_stmts(areas, store, stmts.as_slice()),
            }
        }
        Stmt::Loop { control, body } => {
            know_control(areas, store, control)?;
            know_stmts(areas, store, body.as_slice())
        }
        Stmt::Perform { control, .. } => know_control(areas, store, control),
        Stmt::GoDepending { on, .. } => know_place(areas, store, on),
        _ => Ok(()),
    }
}

/// Keeps the spots of the places in statements.
#[cycle(know_stmt)]
pub fn know_stmts(areas: &mut [Area], store: &Store, stmts: &[Stmt]) -> Result<(), NoMemory>
    ensures { areas.new ≡ areas.old }
{
    for stmt in stmts {
        know_stmt(areas, store, stmt)?;
    }
    Ok(())
}

#[cycle(know_stmt)]
fn know_arms(areas: &mut [Area], store: &Store, arms: &Arms) -> Result<(), NoMemory>
    ensures { areas.new ≡ areas.old }
{
    if let Some(stmts) = &arms.first {
        know_stmts(areas, store, stmts.as_slice())?;
    }
    match &arms.second {
        None => Ok(()),
        Some(stmts) => know_stmts(areas, store, stmts.as_slice()),
    }
}

#[cycle(know_stmt)]
fn know_whens(areas: &mut [Area], store: &Store, whens: &[When]) -> Result<(), NoMemory>
    ensures { areas.new ≡ areas.old }
{
    for when in whens {
        know_tests(areas, store, when.tests.as_slice())?;
        know_stmts(areas, store, when.stmts.as_slice())?;
    }
    Ok(())
}
