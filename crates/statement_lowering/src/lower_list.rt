//! Lowers the statements of a list.

ghost use Rattle.std.specs.Prelude.{◌≡◌, ◌+◌, ◌<◌, ◌^◌, [], true, false, is_some, map, slice_get, sum_by, IfOk, OnOk, IsTrue, Some};
ghost use Rattle.cob_tree.specs.Places.{arms_places, stmt_places, when_places};
ghost use Rattle.cob_tree.specs.declared.stmt.Arms.{out-Arms};
ghost use Rattle.control_flow_theory.specs.language.All.{all};
ghost use Rattle.control_flow_theory.specs.language.Control.{always, control_in, test_of};
ghost use Rattle.control_flow_theory.specs.language.Language.{Arith, By, Evaluate, Holds, If, Read};
ghost use Rattle.control_flow_theory.specs.language.OwnItems.{arms_own, control_own, stmt_own, stmts_own, when_own};
ghost use Rattle.branch_tree.specs.Tree.{seen_end};
ghost use Rattle.program_facts.specs.completion.FlowFacts.{status_missing};
ghost use Rattle.statement_lowering.specs.LowerList.{Runs, RunsBy, RunsTo, flow_facts_by};
ghost use Rattle.statement_lowering.specs.LoopParts.{Begins, EndsLoop};
ghost use Rattle.statement_lowering.specs.EscapeFree.{Escapes};
ghost use Rattle.statement_lowering.specs.Arms.{AddsArmOf, AreArms, IsChoice, if_arms, left_by, missing_end, one_arm, phrase_arms, phrase_own, phrase_places, when_arms, when_tests};

use crate::choices::{pick_always, pick_arith, pick_evaluate, pick_if, pick_read};
use crate::context::{EscapeTargets, RestContext, rest_at};
use crate::escape_free::run_whole;
use crate::loop_parts::end_or;
use branch_tree::{End, Piece, Tree, drop_pieces, drop_trees};
use cob_base::{Items, NoMemory};
use cob_tree::{Arms, Calc, Cond, Control, Place, Stmt, Subject, Target, When};
use lowering_labels::loop_nodes::{
    body_with_end, depending, end_at, loop_head_label, push_only, start_loop,
};
use lowering_labels::points::{JumpTarget, jump_target_of, point, stmt_size, stmts_size};
use program_facts::completion::{ends_at_end, stmt_facts};
use std::alloc::Global;

/// Lowers statements from a place on, with that continuation after them: adds to the body, and
/// answers how the tree ends, or none at the end of the list.
#[cycle(run)]
pub fn lower_rest(
    alloc: Global,
    body: &mut Vec<Piece>,
    stmts: &[Stmt],
    place: u32,
    context: RestContext<'_>,
) -> Result<Option<End>, NoMemory>
    requires own { IsTrue (stmts_own stmts.now) }
    requires fits { place + sum_by stmt_places stmts.now < 2 ^ 32 }
    ensures { IfOk result (λ end. Runs context.entry.telling.now context.entry.leaving.now
        stmts.now place context.entry.after.now end body.old.items body.new.items) }
{
    let mut here = place;
    let mut at = 0usize;
    for stmt in stmts {
        at += 1;
        let next = here + stmt_size(stmt) as u32;
        let behind = jump_target_of(
            rest_at(stmts, at),
            next,
            context.telling.layout,
            *context.after,
        );
        match run_stmt(
            alloc,
            body,
            stmt,
            here,
            RestContext {
                after: &behind,
                ..context
            },
        )? {
            Some(end) => return Ok(Some(end)),
            None => here = next,
        }
    }
    Ok(None)
}

/// Lowers a statement, with that continuation after it.
#[cycle(run)]
fn run_stmt(
    alloc: Global,
    body: &mut Vec<Piece>,
    stmt: &Stmt,
    place: u32,
    context: RestContext<'_>,
) -> Result<Option<End>, NoMemory>
    requires own { IsTrue (stmt_own stmt.now) }
    requires fits { place + stmt_places stmt.now < 2 ^ 32 }
    ensures { IfOk result (λ end. RunsBy context.entry.telling.now context.entry.leaving.now
        stmt.now place context.entry.after.now end body.old.items body.new.items) }
{
    let facts = stmt_facts(stmt, context.telling.files, context.telling.returning);
    if facts.whole {
        let end = run_whole(alloc, body, stmt, facts.completes, context.telling)?;
        return Ok(end);
    }
    let end = run_escape(alloc, body, stmt, place, context)?;
    Ok(Some(end))
}

/// How the tree ends at a statement that holds an escape.
#[cycle(run)]
fn run_escape(
    alloc: Global,
    body: &mut Vec<Piece>,
    stmt: &Stmt,
    place: u32,
    context: RestContext<'_>,
) -> Result<End, NoMemory>
    requires escapes { Escapes (flow_facts_by context.telling.now) stmt.now true }
    requires own { IsTrue (stmt_own stmt.now) }
    requires fits { place + stmt_places stmt.now < 2 ^ 32 }
    ensures { IfOk result (λ end. RunsBy context.entry.telling.now context.entry.leaving.now
        stmt.now place context.entry.after.now (Some end) body.old.items body.new.items) }
{
    match stmt {
        Stmt::Go(to) => Ok(End::Jump(point(context.telling.layout.place_of(*to)))),
        Stmt::GoDepending { to, on } => {
            let end = depending(
                alloc,
                to.as_slice(),
                on,
                context.telling.layout,
                *context.after,
            )?;
            Ok(end)
        }
        Stmt::NextSentence => Ok(end_at(context.leaving.sentence)),
        Stmt::ExitParagraph => Ok(end_at(context.leaving.paragraph)),
        Stmt::ExitSection => Ok(end_at(context.leaving.section)),
        Stmt::ExitPerform { cycle } => Ok(end_at(loop_left(*cycle, context.leaving))),
        Stmt::If { cond, yes, no } => {
            let met = yes.as_slice();
            let unmet = no.as_slice();
            let end = run_if(alloc, cond, met, unmet, place, context)?;
            Ok(end)
        }
        Stmt::Evaluate {
            subject,
            whens,
            other,
        } => {
            let whens = whens.as_slice();
            let end = run_evaluate(alloc, subject, whens, other, place, context)?;
            Ok(end)
        }
        Stmt::Read { file, into, arms } => {
            let end = run_read(alloc, *file, into, arms, place, context)?;
            Ok(end)
        }
        Stmt::Arith { calc, into, arms } => {
            let end = run_arith(alloc, calc, into, arms, place, context)?;
            Ok(end)
        }
        Stmt::Loop {
            control,
            body: turns,
        } => {
            let turns = turns.as_slice();
            let end = run_loop(alloc, body, control, turns, place, context)?;
            Ok(end)
        }
        Stmt::Display { .. } => Ok(End::Dead),
        Stmt::Move { .. } => Ok(End::Dead),
        Stmt::SetTrue(_) => Ok(End::Dead),
        Stmt::Opens(_) => Ok(End::Dead),
        Stmt::Closes(_) => Ok(End::Dead),
        Stmt::Write { .. } => Ok(End::Dead),
        Stmt::Rewrite { .. } => Ok(End::Dead),
        Stmt::Perform { .. } => Ok(End::Dead),
        Stmt::StopRun => Ok(End::Dead),
        Stmt::Exit => Ok(End::Dead),
        Stmt::Continue => Ok(End::Dead),
    }
}

/// Where EXIT PERFORM leads.
fn loop_left(cycle: bool, leaving: &EscapeTargets) -> JumpTarget
    ensures { result ≡ left_by cycle leaving.now }
{
    if cycle {
        leaving.cycle
    } else {
        leaving.behind_loop
    }
}

/// The end at an IF.
#[cycle(run)]
fn run_if(
    alloc: Global,
    cond: &Cond,
    met: &[Stmt],
    unmet: &[Stmt],
    place: u32,
    context: RestContext<'_>,
) -> Result<End, NoMemory>
    requires met { IsTrue (stmts_own met.now) }
    requires unmet { IsTrue (stmts_own unmet.now) }
    requires fits { place + 1 + sum_by stmt_places met.now + sum_by stmt_places unmet.now < 2 ^ 32 }
    ensures { IfOk result (IsChoice context.entry.telling.now context.entry.leaving.now (If
        (test_of cond.now)) false (if_arms met.now unmet.now) (place + 1) context.entry.after.now) }
{
    let mut arms = Items::new(alloc);
    match push_both(alloc, &mut arms, met, unmet, place, context) {
        Ok(()) => {
            let end = pick_if(alloc, cond, arms)?;
            Ok(end)
        }
        Err(fault) => {
            drop_trees(arms);
            Err(fault)
        }
    }
}

/// Adds the arms of an IF at a place.
#[cycle(run)]
fn push_both(
    alloc: Global,
    arms: &mut Items<Tree>,
    met: &[Stmt],
    unmet: &[Stmt],
    place: u32,
    context: RestContext<'_>,
) -> Result<(), NoMemory>
    requires none { arms.old ≡ [] }
    requires met { IsTrue (stmts_own met.now) }
    requires unmet { IsTrue (stmts_own unmet.now) }
    requires fits { place + 1 + sum_by stmt_places met.now + sum_by stmt_places unmet.now < 2 ^ 32 }
    ensures { OnOk result (AreArms context.entry.telling.now context.entry.leaving.now false
        (if_arms met.now unmet.now) (place + 1) context.entry.after.now arms.new) }
{
    push_arm(alloc, arms, met, place + 1, context)?;
    let next = place + 1 + stmts_size(met) as u32;
    push_arm(alloc, arms, unmet, next, context)?;
    Ok(())
}

/// The end at an EVALUATE.
#[cycle(run)]
fn run_evaluate(
    alloc: Global,
    subject: &Subject,
    whens: &[When],
    other: &Option<Items<Stmt>>,
    place: u32,
    context: RestContext<'_>,
) -> Result<End, NoMemory>
    requires whens { IsTrue (all (map when_own whens.now)) }
    requires other { IsTrue (phrase_own other.now) }
    requires fits { place + 1 + sum_by when_places whens.now + phrase_places other.now < 2 ^ 32 }
    ensures { IfOk result (IsChoice context.entry.telling.now context.entry.leaving.now (By
        (Evaluate subject.now (when_tests whens.now) (is_some other.now))) false (when_arms
        whens.now other.now) (place + 1) context.entry.after.now) }
{
    let mut arms = Items::new(alloc);
    match push_whens(alloc, &mut arms, whens, other, place, context) {
        Ok(()) => {
            let end = pick_evaluate(alloc, subject, whens, other.is_some(), arms)?;
            Ok(end)
        }
        Err(fault) => {
            drop_trees(arms);
            Err(fault)
        }
    }
}

/// Adds the arms of an EVALUATE at a place.
#[cycle(run)]
fn push_whens(
    alloc: Global,
    arms: &mut Items<Tree>,
    whens: &[When],
    other: &Option<Items<Stmt>>,
    place: u32,
    context: RestContext<'_>,
) -> Result<(), NoMemory>
    requires none { arms.old ≡ [] }
    requires whens { IsTrue (all (map when_own whens.now)) }
    requires other { IsTrue (phrase_own other.now) }
    requires fits { place + 1 + sum_by when_places whens.now + phrase_places other.now < 2 ^ 32 }
    ensures { OnOk result (AreArms context.entry.telling.now context.entry.leaving.now false
        (when_arms whens.now other.now) (place + 1) context.entry.after.now arms.new) }
{
    let mut here = place + 1;
    for when in whens {
        let stmts = when.stmts.as_slice();
        push_arm(alloc, arms, stmts, here, context)?;
        here += stmts_size(stmts) as u32;
    }
    match other {
        None => {
            push_only(alloc, arms, end_at(*context.after))?;
            Ok(())
        }
        Some(stmts) => {
            push_arm(alloc, arms, stmts.as_slice(), here, context)?;
            Ok(())
        }
    }
}

/// The end at a READ.
#[cycle(run)]
fn run_read(
    alloc: Global,
    file: u32,
    into: &Option<Place>,
    phrases: &Arms,
    place: u32,
    context: RestContext<'_>,
) -> Result<End, NoMemory>
    requires own { IsTrue (arms_own phrases.now) }
    requires fits { place + 1 + arms_places phrases.now < 2 ^ 32 }
    ensures { IfOk result (IsChoice context.entry.telling.now context.entry.leaving.now (By (Read
        file into.now (is_some (out-Arms phrases.now).first))) (status_missing (slice_get
        context.entry.telling.now.files.now file)) (phrase_arms phrases.now) (place + 1)
        context.entry.after.now) }
{
    let is_dead = ends_at_end(context.telling.files, file);
    let mut arms = Items::new(alloc);
    match push_phrases(alloc, &mut arms, phrases, is_dead, place, context) {
        Ok(()) => {
            let end = pick_read(alloc, file, into, phrases.first.is_some(), arms)?;
            Ok(end)
        }
        Err(fault) => {
            drop_trees(arms);
            Err(fault)
        }
    }
}

/// The end at arithmetic with a phrase.
#[cycle(run)]
fn run_arith(
    alloc: Global,
    calc: &Calc,
    into: &Items<Target>,
    phrases: &Arms,
    place: u32,
    context: RestContext<'_>,
) -> Result<End, NoMemory>
    requires own { IsTrue (arms_own phrases.now) }
    requires fits { place + 1 + arms_places phrases.now < 2 ^ 32 }
    ensures { IfOk result (IsChoice context.entry.telling.now context.entry.leaving.now (By (Arith
        calc.now into.now)) false (phrase_arms phrases.now) (place + 1) context.entry.after.now) }
{
    let mut arms = Items::new(alloc);
    match push_phrases(alloc, &mut arms, phrases, false, place, context) {
        Ok(()) => {
            let end = pick_arith(alloc, calc, into, arms)?;
            Ok(end)
        }
        Err(fault) => {
            drop_trees(arms);
            Err(fault)
        }
    }
}

/// Adds the two arms of READ or of arithmetic at a place.
#[cycle(run)]
fn push_phrases(
    alloc: Global,
    arms: &mut Items<Tree>,
    phrases: &Arms,
    is_dead: bool,
    place: u32,
    context: RestContext<'_>,
) -> Result<(), NoMemory>
    requires none { arms.old ≡ [] }
    requires own { IsTrue (arms_own phrases.now) }
    requires fits { place + 1 + arms_places phrases.now < 2 ^ 32 }
    ensures { OnOk result (AreArms context.entry.telling.now context.entry.leaving.now is_dead
        (phrase_arms phrases.now) (place + 1) context.entry.after.now arms.new) }
{
    match &phrases.first {
        None => {
            push_only(alloc, arms, missing_end(is_dead, context.after))?;
            match &phrases.second {
                None => {
                    push_only(alloc, arms, end_at(*context.after))?;
                    Ok(())
                }
                Some(stmts) => {
                    push_arm(alloc, arms, stmts.as_slice(), place + 1, context)?;
                    Ok(())
                }
            }
        }
        Some(stmts) => {
            let stmts = stmts.as_slice();
            push_arm(alloc, arms, stmts, place + 1, context)?;
            let next = place + 1 + stmts_size(stmts) as u32;
            match &phrases.second {
                None => {
                    push_only(alloc, arms, end_at(*context.after))?;
                    Ok(())
                }
                Some(stmts) => {
                    push_arm(alloc, arms, stmts.as_slice(), next, context)?;
                    Ok(())
                }
            }
        }
    }
}

/// The end of a first arm that is missing.
fn missing_end(is_dead: bool, after: &JumpTarget) -> End
    ensures { seen_end result ≡ missing_end is_dead after.now }
{
    if is_dead {
        return End::Dead;
    }
    end_at(*after)
}

/// The end at an inline loop.
#[cycle(run)]
fn run_loop(
    alloc: Global,
    body: &mut Vec<Piece>,
    control: &Control,
    turns: &[Stmt],
    place: u32,
    context: RestContext<'_>,
) -> Result<End, NoMemory>
    requires own { IsTrue (stmts_own turns.now) }
    requires control { IsTrue (control_own control.now) }
    requires fits { place + 1 + sum_by stmt_places turns.now < 2 ^ 32 }
    ensures { IfOk result (EndsLoop context.entry.telling.now context.entry.leaving.now control.now
        turns.now place context.entry.after.now body.old.items body.new.items) }
{
    match control {
        Control::Once => {
            let end = run_once(alloc, turns, place, context)?;
            Ok(end)
        }
        Control::Times(_) => {
            let end = begin_loop(alloc, body, control, place)?;
            Ok(end)
        }
        Control::Until { .. } => {
            let end = begin_loop(alloc, body, control, place)?;
            Ok(end)
        }
        Control::Varying { .. } => {
            let end = begin_loop(alloc, body, control, place)?;
            Ok(end)
        }
    }
}

/// The end before a loop.
fn begin_loop(
    alloc: Global,
    body: &mut Vec<Piece>,
    control: &Control,
    place: u32,
) -> Result<End, NoMemory>
    requires { IsTrue (control_own control.now) }
    ensures { IfOk result (Begins (control_in control.now) place body.old.items body.new.items) }
{
    start_loop(alloc, body, control, place)?;
    Ok(End::Jump(loop_head_label(place)))
}

/// The end at a loop without TIMES, UNTIL and VARYING.
#[cycle(run)]
fn run_once(
    alloc: Global,
    turns: &[Stmt],
    place: u32,
    context: RestContext<'_>,
) -> Result<End, NoMemory>
    requires own { IsTrue (stmts_own turns.now) }
    requires fits { place + 1 + sum_by stmt_places turns.now < 2 ^ 32 }
    ensures { IfOk result (IsChoice context.entry.telling.now context.entry.leaving.now (If (Holds
        always)) false (one_arm turns.now) (place + 1) context.entry.after.now) }
{
    let mut arms = Items::new(alloc);
    match push_arm(alloc, &mut arms, turns, place + 1, context) {
        Ok(()) => Ok(pick_always(arms)),
        Err(fault) => {
            drop_trees(arms);
            Err(fault)
        }
    }
}

/// The tree of a body, then statements from a place on, and then the continuation.
#[cycle(run)]
pub fn lower_rest_to(
    alloc: Global,
    body: Vec<Piece>,
    stmts: &[Stmt],
    place: u32,
    context: RestContext<'_>,
) -> Result<Tree, NoMemory>
    requires own { IsTrue (stmts_own stmts.now) }
    requires fits { place + sum_by stmt_places stmts.now < 2 ^ 32 }
    ensures { IfOk result (RunsTo context.entry.telling.now context.entry.leaving.now stmts.now
        place context.entry.after.now body.items) }
{
    let mut body = body;
    match lower_rest(alloc, &mut body, stmts, place, context) {
        Ok(end) => Ok(body_with_end(body, end_or(end, context.after))),
        Err(fault) => {
            drop_pieces(body);
            Err(fault)
        }
    }
}

/// Adds an arm: statements from a place on, and then the continuation.
#[cycle(run)]
fn push_arm(
    alloc: Global,
    arms: &mut Items<Tree>,
    stmts: &[Stmt],
    place: u32,
    context: RestContext<'_>,
) -> Result<(), NoMemory>
    requires own { IsTrue (stmts_own stmts.now) }
    requires fits { place + sum_by stmt_places stmts.now < 2 ^ 32 }
    ensures { OnOk result (AddsArmOf context.entry.telling.now context.entry.leaving.now stmts.now
        place context.entry.after.now arms.old arms.new) }
{
    let tree = lower_rest_to(alloc, Vec::new(alloc), stmts, place, context)?;
    arms.push(tree)?;
    Ok(())
}
