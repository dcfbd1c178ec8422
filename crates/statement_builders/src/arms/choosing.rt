//! Statements with arms, from the lists that their arms hold.

ghost use Rattle.std.specs.Prelude.{◌≡◌, ◌||◌, is_some, IfOk, IsOk, IsTrue};
ghost use Rattle.control_flow_theory.specs.language.Control.{seen_stmts};
ghost use Rattle.control_flow_theory.specs.language.OwnItems.{control_own};
ghost use Rattle.statement_builders.specs.arms.Choosing.{IsIf, IsEvaluate, IsRead, IsArith, IsOwnPerform, IsOwnLoop};

use crate::arms::empty_arms::{arm_unless_empty, or_continue};
use cob_base::{Items, NoMemory};
use cob_tree::{Arms, Calc, Cond, Control, Place, Stmt, Subject, Target, When};
use program_facts::own_items::is_own_control;

/// IF: its ELSE is left out where it is empty.
pub fn if_stmt(cond: Cond, yes: Items<Stmt>, no: Items<Stmt>) -> Result<Stmt, NoMemory>
    ensures { IfOk result (λ made. IsIf cond (seen_stmts 0 yes) (seen_stmts 0 no) made) }
{
    let yes = or_continue(yes)?;
    Ok(Stmt::If { cond, yes, no })
}

/// EVALUATE of WHENs with statements: an empty WHEN OTHER holds CONTINUE, or is left out.
pub fn evaluate_stmt(
    subject: Subject,
    whens: Items<When>,
    other: Items<Stmt>,
    has_other: bool,
) -> Result<Stmt, NoMemory>
    ensures { IfOk result (λ made. IsEvaluate subject whens has_other (seen_stmts 0 other) made) }
{
    match arm_unless_empty(other, has_other) {
        Ok(other) => Ok(Stmt::Evaluate {
            subject,
            whens,
            other,
        }),
        Err(fault) => Err(fault),
    }
}

/// READ: an empty AT END holds CONTINUE, or is left out, and an empty NOT AT END is left out.
pub fn read_stmt(
    file: u32,
    into: Option<Place>,
    first: Items<Stmt>,
    second: Items<Stmt>,
    has_end: bool,
) -> Result<Stmt, NoMemory>
    ensures { IfOk result
        (λ made. IsRead file into has_end (seen_stmts 0 first) (seen_stmts 0 second) made) }
{
    let first = arm_unless_empty(first, has_end)?;
    let second = arm_unless_empty(second, false)?;
    let arms = Arms { first, second };
    Ok(Stmt::Read { file, into, arms })
}

fn has_arm(first: &Option<Items<Stmt>>, second: &Option<Items<Stmt>>) -> bool
    ensures { result ≡ (is_some first.now || is_some second.now) }
{
    first.is_some() || second.is_some()
}

/// Arithmetic: an empty ON SIZE ERROR holds CONTINUE, or is left out, and an empty NOT ON SIZE
/// ERROR is left out. Err also where both are left out, which no program that is read has: it would
/// choose nothing.
pub fn arith_stmt(
    calc: Calc,
    into: Items<Target>,
    first: Items<Stmt>,
    second: Items<Stmt>,
    has_first: bool,
) -> Result<Stmt, NoMemory>
    ensures { IfOk result
        (λ made. IsArith calc into has_first (seen_stmts 0 first) (seen_stmts 0 second) made) }
{
    let first = arm_unless_empty(first, has_first)?;
    let second = arm_unless_empty(second, false)?;
    if has_arm(&first, &second) {
        let arms = Arms { first, second };
        Ok(Stmt::Arith { calc, into, arms })
    } else {
        Err(NoMemory)
    }
}

/// PERFORM of the procedure at the place. Err also where it is tested by an added item, which no
/// program that is read has, so it has no error of its own.
pub fn perform_stmt(place: u32, control: Control) -> Result<Stmt, NoMemory>
    ensures own { IfOk result (λ made. IsOwnPerform place control made) }
    ensures every { IsTrue (control_own control) → IsOk result }
{
    if is_own_control(&control) {
        Ok(Stmt::Perform {
            entry: place,
            exit: place,
            control,
        })
    } else {
        Err(NoMemory)
    }
}

/// PERFORM of statements. Err also where it is tested by an added item, as above.
pub fn loop_stmt(control: Control, body: Items<Stmt>) -> Result<Stmt, NoMemory>
    ensures own { IfOk result (λ made. IsOwnLoop control body made) }
    ensures every { IsTrue (control_own control) → IsOk result }
{
    if is_own_control(&control) {
        Ok(Stmt::Loop { control, body })
    } else {
        Err(NoMemory)
    }
}
