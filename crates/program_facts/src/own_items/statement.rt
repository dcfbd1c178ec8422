//! Statements of the program's own.

ghost use Rattle.std.specs.Prelude.{◌≡◌, true};
ghost use Rattle.control_flow_theory.specs.language.Control.{seen, seen_stmts};
ghost use Rattle.control_flow_theory.specs.language.Own.{OwnStmt, OwnStmts};
ghost use Rattle.program_facts.specs.own_items.Within.{OwnIfAny, OwnBoth, OwnWhens};

use crate::own_items::owning::{
    is_own_arith, is_own_control, is_own_move, is_own_subject, is_own_test,
};
use cob_base::Items;
use cob_tree::{Arms, Stmt, When};

fn all_three(first: bool, second: bool, third: bool) -> bool
    ensures { result ≡ true → (first ≡ true) × (second ≡ true) × (third ≡ true) }
{
    first && second && third
}

/// Whether the statement holds no word on an added item. Arithmetic into an added item isn't one of
/// the program's own, also where it has a phrase.
#[cycle(own)]
pub fn is_own_stmt(stmt: &Stmt) -> bool
    ensures { result ≡ true → OwnStmt (seen 0 stmt.now) }
{
    match stmt {
        Stmt::Arith { into, arms, .. } => is_own_arith(into.as_slice()) && is_own_both(arms),
        Stmt::Move { to, .. } => is_own_move(to.as_slice()),
        Stmt::Read { arms, .. } => is_own_both(arms),
        Stmt::If { cond, yes, no } => {
            all_three(is_own_test(cond), is_own_stmts(yes), is_own_stmts(no))
        }
        Stmt::Evaluate {
            subject,
            whens,
            other,
        } => all_three(
            is_own_subject(subject),
            are_own_whens(whens),
            is_own_arm(other),
        ),
        Stmt::Loop { control, body } => is_own_control(control) && is_own_stmts(body),
        Stmt::Perform { control, .. } => is_own_control(control),
        Stmt::Display { .. } => true,
        Stmt::SetTrue(_) => true,
        Stmt::Opens(_) => true,
        Stmt::Closes(_) => true,
        Stmt::Write { .. } => true,
        Stmt::Rewrite { .. } => true,
        Stmt::Go(_) => true,
        Stmt::GoDepending { .. } => true,
        Stmt::NextSentence => true,
        Stmt::StopRun => true,
        Stmt::Exit => true,
        Stmt::ExitParagraph => true,
        Stmt::ExitSection => true,
        Stmt::ExitPerform { .. } => true,
        Stmt::Continue => true,
    }
}

/// Whether these statements hold no word on an added item.
#[cycle(own)]
pub fn is_own_stmts(stmts: &Items<Stmt>) -> bool
    ensures { result ≡ true → OwnStmts (seen_stmts 0 stmts.now) }
{
    for stmt in stmts.as_slice() {
        if !is_own_stmt(stmt) {
            return false;
        }
    }
    true
}

#[cycle(own)]
fn is_own_arm(arm: &Option<Items<Stmt>>) -> bool
    ensures { result ≡ true → OwnIfAny arm.now }
{
    match arm {
        None => true,
        Some(stmts) => is_own_stmts(stmts),
    }
}

#[cycle(own)]
fn is_own_both(arms: &Arms) -> bool
    ensures { result ≡ true → OwnBoth arms.now }
{
    is_own_arm(&arms.first) && is_own_arm(&arms.second)
}

#[cycle(own)]
fn are_own_whens(whens: &Items<When>) -> bool
    ensures { result ≡ true → OwnWhens whens.now }
{
    for when in whens.as_slice() {
        if !is_own_stmts(&when.stmts) {
            return false;
        }
    }
    true
}
