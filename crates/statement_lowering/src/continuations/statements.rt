//! The rests of statements.

ghost use Rattle.std.specs.Prelude.{◌≡◌, ◌+◌, ◌<◌, ◌≤◌, ◌^◌, is_none, length, map, sum_by, IsTrue, OnOk};
ghost use Rattle.cob_tree.specs.Places.{arms_places, stmt_places, when_places};
ghost use Rattle.control_flow_theory.specs.language.All.{all};
ghost use Rattle.control_flow_theory.specs.language.Control.{control_in};
ghost use Rattle.control_flow_theory.specs.language.OwnItems.{arms_own, stmt_own, stmts_own, when_own};
ghost use Rattle.statement_lowering.specs.Arms.{phrase_arms, phrase_own, phrase_places};
ghost use Rattle.statement_lowering.specs.continuations.Successors.{GoesLater, IsBefore, IsInLoop, begun};
ghost use Rattle.statement_lowering.specs.continuations.Statements.{AddsArms, AddsRests, AddsContinuation, AddsTurns, AddsWithin, branch_arms, inner_places, phrase_alone};

use crate::continuations::continuation::{Continuation, Successors};
use crate::{rest_at, turn_leaf};
use cob_base::{Items, NoMemory};
use cob_tree::{Arms, Control, Stmt, When};
use lowering_labels::points::{JumpTarget, PlaceTable, jump_target_of, stmt_size};

/// The place at which the tree goes on before these statements.
pub fn begun(rest: &[Stmt], place: u32, next: Option<u32>) -> Option<u32>
    ensures { result ≡ begun rest.now place next }
{
    match rest.first() {
        None => next,
        Some(_) => Some(place),
    }
}

/// Where control goes on after the statement before these, whose first has this place.
fn before_rest(onward: &Successors, rest: &[Stmt], place: u32, layout: &PlaceTable) -> Successors
    requires { place + sum_by stmt_places rest.now < 2 ^ 32 }
    ensures { IsBefore layout.now rest.now place onward.now result }
{
    Successors {
        after: jump_target_of(rest, place, layout, onward.after),
        behind: begun(rest, place, onward.behind),
        sentence: onward.sentence,
        behind_loop: onward.behind_loop,
        cycle: onward.cycle,
        paragraph: onward.paragraph,
        last: onward.last,
    }
}

/// Where control goes on in the body of a loop at a place.
fn in_loop(onward: &Successors, control: &Control, place: u32) -> Successors
    ensures { IsInLoop (control_in control.now) place onward.now result }
{
    let turn = turn_leaf(control, place);
    let cycle = turn;
    Successors {
        after: turn,
        behind: None,
        sentence: onward.sentence,
        behind_loop: onward.after,
        cycle,
        paragraph: onward.paragraph,
        last: onward.last,
    }
}

/// Whether a loop has no TIMES, UNTIL and VARYING.
fn is_once(control: &Control) -> bool
    ensures { result ≡ is_none (control_in control.now) }
{
    match control {
        Control::Once => true,
        Control::Times(_) => false,
        Control::Until { .. } => false,
        Control::Varying { .. } => false,
    }
}

/// Adds the rest at a place.
pub fn push_spot<'a>(
    spots: &mut Vec<Continuation<'a>>,
    stmts: &'a [Stmt],
    onward: &Successors,
) -> Result<(), NoMemory>
    ensures { OnOk result (AddsContinuation stmts.now onward.now spots.old.items spots.new.items) }
{
    let spot = Continuation {
        stmts,
        onward: *onward,
    };
    match spots.push(spot) {
        Ok(()) => Ok(()),
        Err(_) => Err(NoMemory),
    }
}

/// Adds the rests of statements, the first of which has the next place.
#[cycle(spots)]
pub fn push_stmts<'a>(
    spots: &mut Vec<Continuation<'a>>,
    stmts: &'a [Stmt],
    layout: &PlaceTable,
    onward: &Successors,
) -> Result<(), NoMemory>
    requires own { IsTrue (stmts_own stmts.now) }
    requires fits { length spots.old.items + sum_by stmt_places stmts.now ≤ layout.now.end }
    requires small { layout.now.end < 2 ^ 31 }
    requires later { GoesLater (length spots.old.items + sum_by stmt_places stmts.now)
        layout.now.end onward.now.behind }
    ensures { OnOk result (AddsRests layout.now stmts.now onward.now spots.old.items
        spots.new.items) }
{
    let mut at = 0usize;
    for stmt in stmts {
        let place = spots.len() as u32;
        push_spot(spots, rest_at(stmts, at), onward)?;
        at += 1;
        let next = place + stmt_size(stmt) as u32;
        let inner = before_rest(onward, rest_at(stmts, at), next, layout);
        push_within(spots, stmt, place, layout, &inner)?;
    }
    Ok(())
}

/// Adds the rests of the lists of a statement at a place.
#[cycle(spots)]
fn push_within<'a>(
    spots: &mut Vec<Continuation<'a>>,
    stmt: &'a Stmt,
    place: u32,
    layout: &PlaceTable,
    onward: &Successors,
) -> Result<(), NoMemory>
    requires place { place + 1 ≡ length spots.old.items }
    requires own { IsTrue (stmt_own stmt.now) }
    requires fits { length spots.old.items + inner_places stmt.now ≤ layout.now.end }
    requires small { layout.now.end < 2 ^ 31 }
    requires later { GoesLater (length spots.old.items + inner_places stmt.now) layout.now.end
        onward.now.behind }
    ensures { OnOk result (AddsWithin layout.now stmt.now place onward.now spots.old.items
        spots.new.items) }
{
    match stmt {
        Stmt::If { yes, no, .. } => {
            let met = yes.as_slice();
            let unmet = no.as_slice();
            push_stmts(spots, met, layout, onward)?;
            push_stmts(spots, unmet, layout, onward)?;
            Ok(())
        }
        Stmt::Evaluate { whens, other, .. } => {
            let whens = whens.as_slice();
            push_whens(spots, whens, layout, onward)?;
            push_phrase(spots, other, layout, onward)?;
            Ok(())
        }
        Stmt::Read { arms, .. } => {
            push_arms(spots, arms, layout, onward)?;
            Ok(())
        }
        Stmt::Arith { arms, .. } => {
            push_arms(spots, arms, layout, onward)?;
            Ok(())
        }
        Stmt::Loop { control, body } => {
            let turns = body.as_slice();
            push_turns(spots, control, turns, place, layout, onward)?;
            Ok(())
        }
        Stmt::Display { .. } => Ok(()),
        Stmt::Move { .. } => Ok(()),
        Stmt::SetTrue(_) => Ok(()),
        Stmt::Opens(_) => Ok(()),
        Stmt::Closes(_) => Ok(()),
        Stmt::Write { .. } => Ok(()),
        Stmt::Rewrite { .. } => Ok(()),
        Stmt::Perform { .. } => Ok(()),
        Stmt::Go(_) => Ok(()),
        Stmt::GoDepending { .. } => Ok(()),
        Stmt::NextSentence => Ok(()),
        Stmt::ExitParagraph => Ok(()),
        Stmt::ExitSection => Ok(()),
        Stmt::ExitPerform { .. } => Ok(()),
        Stmt::StopRun => Ok(()),
        Stmt::Exit => Ok(()),
        Stmt::Continue => Ok(()),
    }
}

#[cycle(spots)]
fn push_whens<'a>(
    spots: &mut Vec<Continuation<'a>>,
    whens: &'a [When],
    layout: &PlaceTable,
    onward: &Successors,
) -> Result<(), NoMemory>
    requires own { IsTrue (all (map when_own whens.now)) }
    requires fits { length spots.old.items + sum_by when_places whens.now ≤ layout.now.end }
    requires small { layout.now.end < 2 ^ 31 }
    requires later { GoesLater (length spots.old.items + sum_by when_places whens.now)
        layout.now.end onward.now.behind }
    ensures { OnOk result (AddsArms layout.now (branch_arms whens.now)
        (sum_by when_places whens.now) onward.now spots.old.items spots.new.items) }
{
    for when in whens {
        push_stmts(spots, when.stmts.as_slice(), layout, onward)?;
    }
    Ok(())
}

/// Adds the rests of a list that may be missing.
#[cycle(spots)]
fn push_phrase<'a>(
    spots: &mut Vec<Continuation<'a>>,
    phrase: &'a Option<Items<Stmt>>,
    layout: &PlaceTable,
    onward: &Successors,
) -> Result<(), NoMemory>
    requires own { IsTrue (phrase_own phrase.now) }
    requires fits { length spots.old.items + phrase_places phrase.now ≤ layout.now.end }
    requires small { layout.now.end < 2 ^ 31 }
    requires later { GoesLater (length spots.old.items + phrase_places phrase.now) layout.now.end
        onward.now.behind }
    ensures { OnOk result (AddsArms layout.now (phrase_alone phrase.now) (phrase_places phrase.now)
        onward.now spots.old.items spots.new.items) }
{
    match phrase {
        None => Ok(()),
        Some(stmts) => {
            push_stmts(spots, stmts.as_slice(), layout, onward)?;
            Ok(())
        }
    }
}

#[cycle(spots)]
fn push_arms<'a>(
    spots: &mut Vec<Continuation<'a>>,
    arms: &'a Arms,
    layout: &PlaceTable,
    onward: &Successors,
) -> Result<(), NoMemory>
    requires own { IsTrue (arms_own arms.now) }
    requires fits { length spots.old.items + arms_places arms.now ≤ layout.now.end }
    requires small { layout.now.end < 2 ^ 31 }
    requires later { GoesLater (length spots.old.items + arms_places arms.now) layout.now.end
        onward.now.behind }
    ensures { OnOk result (AddsArms layout.now (phrase_arms arms.now) (arms_places arms.now)
        onward.now spots.old.items spots.new.items) }
{
    push_phrase(spots, &arms.first, layout, onward)?;
    push_phrase(spots, &arms.second, layout, onward)?;
    Ok(())
}

/// Adds the rests of the body of a loop at a place.
#[cycle(spots)]
fn push_turns<'a>(
    spots: &mut Vec<Continuation<'a>>,
    control: &Control,
    turns: &'a [Stmt],
    place: u32,
    layout: &PlaceTable,
    onward: &Successors,
) -> Result<(), NoMemory>
    requires place { place + 1 ≡ length spots.old.items }
    requires own { IsTrue (stmts_own turns.now) }
    requires fits { length spots.old.items + sum_by stmt_places turns.now ≤ layout.now.end }
    requires small { layout.now.end < 2 ^ 31 }
    requires later { GoesLater (length spots.old.items + sum_by stmt_places turns.now)
        layout.now.end onward.now.behind }
    ensures { OnOk result (AddsTurns layout.now control.now turns.now place onward.now
        spots.old.items spots.new.items) }
{
    if is_once(control) {
        push_stmts(spots, turns, layout, onward)?;
        return Ok(());
    }
    let inner = in_loop(onward, control, place);
    push_stmts(spots, turns, layout, &inner)?;
    Ok(())
}
