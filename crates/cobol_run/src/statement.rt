//! What a statement comes to.

ghost use Rattle.std.specs.Prelude.{◌≡◌, [], ℕ, None, IfOk, IfSome};
ghost use Rattle.control_flow_theory.specs.semantics.Items.{item_way};
ghost use Rattle.cobol_theory.specs.cobol_meaning.Runs.{doing_in};
ghost use Rattle.control_flow_theory.specs.language.Control.{seen};
ghost use Rattle.control_flow_theory.specs.language.Items.{Do};
ghost use Rattle.control_flow_theory.specs.language.Language.{Perform};
ghost use Rattle.cobol_run.specs.Own.{ActsAlone, jumps};
ghost use Rattle.cobol_run.specs.Plain.{once_of};
ghost use Rattle.cobol_run.specs.Plan.{declared_by};
ghost use Rattle.cobol_run.specs.NextStep.{KeepsPending, LeadsWhere};

use crate::frame::Body;
use crate::frames::{Frames, leave, leave_loop, leave_sentence};
use crate::held::{Held, Plan};
use crate::next_step::{arith_way, control_way, evaluate_way, if_way, simple_way};
use cob_act::{ActOutcome, has_arms};
use cob_base::NoMemory;
use cob_tree::{Control, Stmt};

/// A range that is performed once.
#[derive(Clone, Copy)]
pub struct Entered {
    pub entry: u32,
    pub exit: u32,
}

/// The range of a PERFORM without a control; none for any other statement.
pub fn performed_once(stmt: &Stmt) -> Option<Entered>
    ensures of { result ≡ once_of stmt.now }
    ensures seen { IfSome result (λ range. (last : ℕ) → seen last stmt.now
        ≡ Perform range.entry range.exit) }
{
    match stmt {
        Stmt::Perform {
            entry,
            exit,
            control,
        } => match control {
            Control::Once => Some(Entered {
                entry: *entry,
                exit: *exit,
            }),
            Control::Times(_) => None,
            Control::Until { .. } => None,
            Control::Varying { .. } => None,
        },
        _ => None,
    }
}

/// Whether a statement goes to another paragraph, without a pending return, or stops the run.
pub fn jumps(stmt: &Stmt) -> bool
    ensures { result ≡ jumps stmt.now }
{
    match stmt {
        Stmt::Go(_) => true,
        Stmt::GoDepending { .. } => true,
        Stmt::ExitSection => true,
        Stmt::StopRun => true,
        _ => false,
    }
}

/// Does a statement that neither jumps nor is a PERFORM without a control.
pub fn stmt_way<'a>(
    plan: &Plan,
    frames: &mut Frames<'a>,
    held: &mut Held,
    stmt: &'a Stmt,
) -> Result<ActOutcome, NoMemory>
    requires empty { held.old.shown ≡ [] }
    ensures way { IfOk result (λ way. LeadsWhere (ActsAlone stmt.now) way
        frames.old frames.new held.old held.new
        (λ last rest memory. item_way (doing_in (declared_by plan.now)) (Do (seen last stmt.now))
        rest memory)) }
    ensures pending { IfOk result (λ way. KeepsPending frames.old frames.new) }
{
    match stmt {
        Stmt::Display { .. } => simple_way(plan, held, stmt),
        Stmt::Move { .. } => simple_way(plan, held, stmt),
        Stmt::Arith { calc, into, arms } => {
            if has_arms(arms) {
                arith_way(plan, frames, held, calc, into.as_slice(), arms)
            } else {
                simple_way(plan, held, stmt)
            }
        }
        Stmt::SetTrue(_) => simple_way(plan, held, stmt),
        Stmt::If { cond, yes, no } => {
            if_way(plan, frames, held, cond, yes.as_slice(), no.as_slice())
        }
        Stmt::Evaluate {
            subject,
            whens,
            other,
        } => evaluate_way(plan, frames, held, subject, whens.as_slice(), other),
        Stmt::Loop { control, body } => {
            control_way(plan, frames, held, control, Body::Nested(body.as_slice()))
        }
        Stmt::Perform {
            entry,
            exit,
            control,
        } => {
            let body = Body::Performed {
                entry: *entry,
                exit: *exit,
            };
            control_way(plan, frames, held, control, body)
        }
        Stmt::NextSentence => {
            leave_sentence(frames)?;
            Ok(ActOutcome::Went)
        }
        Stmt::Exit => simple_way(plan, held, stmt),
        Stmt::ExitParagraph => {
            leave(frames);
            Ok(ActOutcome::Went)
        }
        Stmt::ExitPerform { cycle } => {
            leave_loop(frames, *cycle)?;
            Ok(ActOutcome::Went)
        }
        Stmt::Continue => simple_way(plan, held, stmt),
        // Jumps are made by the machine.
        Stmt::Go(_) => Ok(ActOutcome::Went),
        Stmt::GoDepending { .. } => Ok(ActOutcome::Went),
        Stmt::ExitSection => Ok(ActOutcome::Went),
        Stmt::StopRun => Ok(ActOutcome::Went),
        // Statements on files are done by `filing`, over a bench.
        Stmt::Opens(_) => Ok(ActOutcome::Went),
        Stmt::Closes(_) => Ok(ActOutcome::Went),
        Stmt::Read { .. } => Ok(ActOutcome::Went),
        Stmt::Write { .. } => Ok(ActOutcome::Went),
        Stmt::Rewrite { .. } => Ok(ActOutcome::Went),
    }
}
