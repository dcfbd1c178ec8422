//! What the head of the rest comes to.

ghost use Rattle.std.specs.Prelude.{◌≡◌, ◌∷◌, ◌==◌, [], List, ℕ, IfOk, IsTrue, if◌then◌else◌, is_some, map};
ghost use Rattle.file_model.specs.World.{World};
ghost use Rattle.cob_tree.specs.declared.stmt.Stmt.TheVariants.{Move};
ghost use Rattle.cob_tree.specs.declared.stmt.When.{out-When};
ghost use Rattle.cob_act.specs.Acting.{is_inner};
ghost use Rattle.control_flow_theory.specs.semantics.Items.{loop_begins, tried, turn_way, turns};
ghost use Rattle.cobol_theory.specs.cobol_meaning.Acting.{chooses_in, does_to, tests_in};
ghost use Rattle.cobol_theory.specs.cobol_meaning.Runs.{doing_in};
ghost use Rattle.control_flow_theory.specs.language.Control.{seen_stmts, test_of};
ghost use Rattle.control_flow_theory.specs.language.Items.{Counted, Item, before};
ghost use Rattle.control_flow_theory.specs.language.Language.{Arith, Evaluate, Times, Until};
ghost use Rattle.cobol_run.specs.Frames.{body_seen, rest_of, turning_seen};
ghost use Rattle.cobol_run.specs.Plan.{declared_by, memory_in};
ghost use Rattle.cobol_run.specs.NextStep.{KeepsPending, Leads, arm_at, either, loop_meant, on, steps_after_meant, steps_begun, steps_meant, stmts_or_none, turn_meant, way_seen};

use crate::frame::{Body, LoopProgress};
use crate::frames::{Frames, push_body, push_stmts, push_turn, turn_on};
use crate::held::{Held, Plan, acts, augments, calculates, counts, evaluates, sets, tests};
use cob_act::ActOutcome;
use cob_base::{Items, NoMemory};
use cob_tree::{Arms, Calc, Cond, Control, Operand, Place, Stmt, Subject, Target, When};

/// Does a statement that acts and needs no device.
pub fn simple_way(plan: &Plan, held: &mut Held, stmt: &Stmt) -> Result<ActOutcome, NoMemory>
    requires inner { IsTrue (is_inner stmt.now) }
    requires empty { held.old.shown ≡ [] }
    ensures { IfOk result (λ way. (world : World) (rest : List Item) →
        way_seen way held.new.shown (memory_in held.new.store world) rest
        ≡ tried (does_to (declared_by plan.now) stmt.now (memory_in held.old.store world))
        (λ u. on rest)) }
{
    acts(plan, held, stmt)
}

/// IF: its chosen statements are to be done first.
pub fn if_way<'a>(
    plan: &Plan,
    frames: &mut Frames<'a>,
    held: &Held,
    cond: &Cond,
    yes: &'a [Stmt],
    no: &'a [Stmt],
) -> Result<ActOutcome, NoMemory>
    ensures way { IfOk result (λ way. Leads way frames.old frames.new held.now held.now
        (λ last rest memory. tried (tests_in (declared_by plan.now) cond.now memory)
        (λ met. on (before (seen_stmts last (if met then yes.now else no.now)) rest)))) }
    ensures pending { IfOk result (λ way. KeepsPending frames.old frames.new) }
{
    match tests(plan, held, cond) {
        Err(abend) => Ok(ActOutcome::Abended(abend)),
        Ok(met) => {
            push_stmts(frames, if met { yes } else { no })?;
            Ok(ActOutcome::Went)
        }
    }
}

/// The statements of an arm; none where it isn't written.
pub fn stmts_or_none(stmts: &Option<Items<Stmt>>) -> &[Stmt]
    ensures { result.now ≡ stmts_or_none stmts.now }
{
    match stmts {
        None => &[],
        Some(stmts) => stmts.as_slice(),
    }
}

fn arm_at<'a>(whens: &'a [When], other: &'a Option<Items<Stmt>>, arm: usize) -> &'a [Stmt]
    ensures { result.now ≡ arm_at whens.now other.now arm }
{
    if arm < whens.len() {
        whens[arm].stmts.as_slice()
    } else if arm == whens.len() {
        stmts_or_none(other)
    } else {
        &[]
    }
}

/// EVALUATE: the statements of the arm that it chooses are to be done first.
pub fn evaluate_way<'a>(
    plan: &Plan,
    frames: &mut Frames<'a>,
    held: &Held,
    subject: &Subject,
    whens: &'a [When],
    other: &'a Option<Items<Stmt>>,
) -> Result<ActOutcome, NoMemory>
    ensures way { IfOk result (λ way. Leads way frames.old frames.new held.now held.now
        (λ last rest memory. tried (chooses_in (declared_by plan.now)
        (Evaluate subject.now (map (λ when. (out-When when).tests) whens.now) (is_some other.now))
        memory) (λ arm. on (before (seen_stmts last (arm_at whens.now other.now arm)) rest)))) }
    ensures pending { IfOk result (λ way. KeepsPending frames.old frames.new) }
{
    match evaluates(plan, held, subject, whens) {
        Err(abend) => Ok(ActOutcome::Abended(abend)),
        Ok(arm) => {
            push_stmts(frames, arm_at(whens, other, arm))?;
            Ok(ActOutcome::Went)
        }
    }
}

/// Arithmetic with a phrase on size errors: the statements of the arm that it chooses are to be
/// done first.
pub fn arith_way<'a>(
    plan: &Plan,
    frames: &mut Frames<'a>,
    held: &mut Held,
    calc: &Calc,
    into: &[Target],
    arms: &'a Arms,
) -> Result<ActOutcome, NoMemory>
    ensures way { IfOk result (λ way. Leads way frames.old frames.new held.old held.new
        (λ last rest memory. tried (chooses_in (declared_by plan.now)
        (Arith calc.now into.now) memory)
        (λ arm. on (before (seen_stmts last (either arms.now (arm == 0))) rest)))) }
    ensures pending { IfOk result (λ way. KeepsPending frames.old frames.new) }
{
    match calculates(plan, held, calc, into) {
        Err(abend) => Ok(ActOutcome::Abended(abend)),
        Ok(true) => {
            push_stmts(frames, stmts_or_none(&arms.first))?;
            Ok(ActOutcome::Went)
        }
        Ok(false) => {
            push_stmts(frames, stmts_or_none(&arms.second))?;
            Ok(ActOutcome::Went)
        }
    }
}

/// Begins a loop by TIMES.
pub fn times_way<'a>(
    plan: &Plan,
    frames: &mut Frames<'a>,
    held: &Held,
    amount: &Operand,
    body: Body<'a>,
) -> Result<ActOutcome, NoMemory>
    ensures way { IfOk result (λ way. Leads way frames.old frames.new held.now held.now
        (λ last rest memory. loop_begins (doing_in (declared_by plan.now)) (Times amount.now)
        (body_seen last body.entry) rest memory)) }
    ensures pending { IfOk result (λ way. KeepsPending frames.old frames.new) }
{
    match counts(plan, held, amount) {
        Err(abend) => Ok(ActOutcome::Abended(abend)),
        Ok(turns) => {
            push_turn(frames, LoopProgress::Counted(turns), body)?;
            Ok(ActOutcome::Went)
        }
    }
}

/// Begins a loop by UNTIL.
pub fn until_way<'a>(
    plan: &Plan,
    frames: &mut Frames<'a>,
    held: &Held,
    after: bool,
    cond: &'a Cond,
    body: Body<'a>,
) -> Result<ActOutcome, NoMemory>
    ensures way { IfOk result (λ way. Leads way frames.old frames.new held.now held.now
        (λ last rest memory. loop_begins (doing_in (declared_by plan.now))
        (Until after (test_of cond.now)) (body_seen last body.entry) rest memory)) }
    ensures pending { IfOk result (λ way. KeepsPending frames.old frames.new) }
{
    let turning = LoopProgress::Tests(cond);
    if after {
        turn_on(frames, turning, body)?;
    } else {
        push_turn(frames, turning, body)?;
    }
    Ok(ActOutcome::Went)
}

/// The data of a turn of VARYING.
#[derive(Clone, Copy)]
pub struct Stepped<'a> {
    pub item: &'a Place,
    pub by: &'a Operand,
    pub until: &'a Cond,
}

/// The data of a loop by VARYING.
#[derive(Clone, Copy)]
pub struct Varied<'a> {
    pub after: bool,
    pub from: &'a Operand,
    pub stepped: Stepped<'a>,
}

fn begin_steps<'a>(
    frames: &mut Frames<'a>,
    after: bool,
    stepped: Stepped<'a>,
    body: Body<'a>,
) -> Result<(), NoMemory>
    ensures rest { IfOk result (λ u. (last : ℕ) → rest_of last frames.new
        ≡ steps_begun after stepped.entry.item.now stepped.entry.by.now stepped.entry.until.now
        (body_seen last body.entry) (rest_of last frames.old)) }
    ensures pending { IfOk result (λ u. KeepsPending frames.old frames.new) }
{
    let Stepped { item, by, until } = stepped;
    if after {
        turn_on(frames, LoopProgress::StepsAfter { item, by, until }, body)
    } else {
        let reached = false;
        let turning = LoopProgress::Steps {
            reached,
            item,
            by,
            until,
        };
        push_turn(frames, turning, body)
    }
}

/// Begins a loop by VARYING.
pub fn varying_way<'a>(
    plan: &Plan,
    frames: &mut Frames<'a>,
    held: &mut Held,
    varied: Varied<'a>,
    body: Body<'a>,
) -> Result<ActOutcome, NoMemory>
    ensures way { IfOk result (λ way. Leads way frames.old frames.new held.old held.new
        (λ last rest memory. tried (does_to (declared_by plan.now)
        (Move varied.entry.from.now (varied.entry.stepped.item.now ∷ [])) memory)
        (λ u. on (steps_begun varied.entry.after varied.entry.stepped.item.now
        varied.entry.stepped.by.now varied.entry.stepped.until.now (body_seen last body.entry)
        rest)))) }
    ensures pending { IfOk result (λ way. KeepsPending frames.old frames.new) }
{
    match sets(plan, held, varied.stepped.item, varied.from)? {
        Err(abend) => Ok(ActOutcome::Abended(abend)),
        Ok(()) => {
            begin_steps(frames, varied.after, varied.stepped, body)?;
            Ok(ActOutcome::Went)
        }
    }
}

// Makes a test of a loop: one more turn, or none.
fn test_turn<'a>(
    plan: &Plan,
    frames: &mut Frames<'a>,
    held: &Held,
    until: &Cond,
    turning: LoopProgress<'a>,
    body: Body<'a>,
) -> Result<ActOutcome, NoMemory>
    ensures way { IfOk result (λ way. Leads way frames.old frames.new held.now held.now
        (λ last rest memory. tried (tests_in (declared_by plan.now) until.now memory) (λ ended.
        on (turns (doing_in (declared_by plan.now)) ended (turning_seen turning.entry)
        (body_seen last body.entry) rest)))) }
    ensures pending { IfOk result (λ way. KeepsPending frames.old frames.new) }
{
    match tests(plan, held, until) {
        Err(abend) => Ok(ActOutcome::Abended(abend)),
        Ok(true) => Ok(ActOutcome::Went),
        Ok(false) => {
            turn_on(frames, turning, body)?;
            Ok(ActOutcome::Went)
        }
    }
}

fn counted_way<'a>(
    plan: &Plan,
    frames: &mut Frames<'a>,
    held: &Held,
    turns: u128,
    body: Body<'a>,
) -> Result<ActOutcome, NoMemory>
    ensures way { IfOk result (λ way. Leads way frames.old frames.new held.now held.now
        (λ last rest memory. turn_way (doing_in (declared_by plan.now)) (Counted turns)
        (body_seen last body.entry) rest memory)) }
    ensures pending { IfOk result (λ way. KeepsPending frames.old frames.new) }
{
    if turns > 0 {
        turn_on(frames, LoopProgress::Counted(turns - 1), body)?;
    }
    Ok(ActOutcome::Went)
}

// VARYING tested before: each arrival but the first begins with the augmenting ADD.
fn steps_way<'a>(
    plan: &Plan,
    frames: &mut Frames<'a>,
    held: &mut Held,
    reached: bool,
    stepped: Stepped<'a>,
    body: Body<'a>,
) -> Result<ActOutcome, NoMemory>
    ensures way { IfOk result (λ way. Leads way frames.old frames.new held.old held.new
        (λ last rest memory. steps_meant (declared_by plan.now) reached stepped.entry.item.now
        stepped.entry.by.now stepped.entry.until.now (body_seen last body.entry) rest memory)) }
    ensures pending { IfOk result (λ way. KeepsPending frames.old frames.new) }
{
    if reached {
        if let Err(abend) = augments(plan, held, stepped.item, stepped.by) {
            return Ok(ActOutcome::Abended(abend));
        }
    }
    let turning = LoopProgress::Steps {
        reached: true,
        item: stepped.item,
        by: stepped.by,
        until: stepped.until,
    };
    test_turn(plan, frames, held, stepped.until, turning, body)
}

// VARYING tested after.
fn steps_after_way<'a>(
    plan: &Plan,
    frames: &mut Frames<'a>,
    held: &mut Held,
    stepped: Stepped<'a>,
    body: Body<'a>,
) -> Result<ActOutcome, NoMemory>
    ensures way { IfOk result (λ way. Leads way frames.old frames.new held.old held.new
        (λ last rest memory. steps_after_meant (declared_by plan.now) stepped.entry.item.now
        stepped.entry.by.now stepped.entry.until.now (body_seen last body.entry) rest memory)) }
    ensures pending { IfOk result (λ way. KeepsPending frames.old frames.new) }
{
    match tests(plan, held, stepped.until) {
        Err(abend) => return Ok(ActOutcome::Abended(abend)),
        Ok(true) => return Ok(ActOutcome::Went),
        Ok(false) => {}
    }
    if let Err(abend) = augments(plan, held, stepped.item, stepped.by) {
        return Ok(ActOutcome::Abended(abend));
    }
    let turning = LoopProgress::StepsAfter {
        item: stepped.item,
        by: stepped.by,
        until: stepped.until,
    };
    turn_on(frames, turning, body)?;
    Ok(ActOutcome::Went)
}

/// Does what is left of a loop: one more turn, or none.
pub fn turning_way<'a>(
    plan: &Plan,
    frames: &mut Frames<'a>,
    held: &mut Held,
    turning: LoopProgress<'a>,
    body: Body<'a>,
) -> Result<ActOutcome, NoMemory>
    ensures way { IfOk result (λ way. Leads way frames.old frames.new held.old held.new
        (λ last rest memory. turn_meant (declared_by plan.now) turning.entry
        (body_seen last body.entry) rest memory)) }
    ensures pending { IfOk result (λ way. KeepsPending frames.old frames.new) }
{
    match turning {
        LoopProgress::Counted(turns) => counted_way(plan, frames, held, turns, body),
        LoopProgress::Tests(until) => test_turn(plan, frames, held, until, turning, body),
        LoopProgress::Steps {
            reached,
            item,
            by,
            until,
        } => {
            let stepped = Stepped { item, by, until };
            steps_way(plan, frames, held, reached, stepped, body)
        }
        LoopProgress::StepsAfter { item, by, until } => {
            let stepped = Stepped { item, by, until };
            steps_after_way(plan, frames, held, stepped, body)
        }
    }
}

/// Begins a loop; under `Once` its body is done once.
pub fn control_way<'a>(
    plan: &Plan,
    frames: &mut Frames<'a>,
    held: &mut Held,
    control: &'a Control,
    body: Body<'a>,
) -> Result<ActOutcome, NoMemory>
    ensures way { IfOk result (λ way. Leads way frames.old frames.new held.old held.new
        (λ last rest memory. loop_meant (declared_by plan.now) control.now
        (body_seen last body.entry) rest memory)) }
    ensures pending { IfOk result (λ way. KeepsPending frames.old frames.new) }
{
    match control {
        Control::Once => {
            push_body(frames, body)?;
            Ok(ActOutcome::Went)
        }
        Control::Times(amount) => times_way(plan, frames, held, amount, body),
        Control::Until { after, cond } => until_way(plan, frames, held, *after, cond, body),
        Control::Varying {
            after,
            item,
            from,
            by,
            cond,
        } => {
            let varied = Varied {
                after: *after,
                from: from.get(),
                stepped: Stepped {
                    item: item.get(),
                    by: by.get(),
                    until: cond,
                },
            };
            varying_way(plan, frames, held, varied, body)
        }
    }
}
