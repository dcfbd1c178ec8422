//! Whether a trail is accepted.

ghost use Rattle.std.specs.Prelude.{List, [], ◌≡◌, ◌↔◌, ◌+◌, ◌<◌, length, drop, IsTrue};
ghost use Rattle.control_flow_theory.specs.language.Control.{control_of};
ghost use Rattle.program_points.specs.paths.Flow.{main_range};
ghost use Rattle.program_points.specs.paths.Accepted.{LeadsTo, LemmasHold, IsAccepted, lemma_ranges};
ghost use Rattle.program_points.specs.declared.paths.trail.Hop.{Hop};
ghost use Rattle.program_points.specs.numbering.Kind.{never_first_of};
ghost use Rattle.overlap_trail.specs.Checking.{aim_of, exits_of, aim_behind, HopsFrom, IsFirstMain};

use crate::judge::{Goal, LegContext};
use crate::leg::{ParagraphStep, one_leg};
use cob_tree::{FlowFault, Program, Range};
use program_points::paths::{Hop, Lemma, Move, Trail};

/// Whether the moves lead from the range's entry to the goal.
pub fn leads(
    program: &Program,
    lemmas: &[Lemma],
    range: Range,
    moves: &[Move],
    goal: Goal,
    hops: &[Hop],
) -> bool
    ensures { IsTrue result ↔ LeadsTo (never_first_of program.now.files) (control_of program.now)
        (lemma_ranges lemmas.now) range (aim_of goal hops.now) moves.now }
{
    let count = program.paragraphs.len();
    if range.entry as usize >= count {
        return false;
    }
    let mut paragraph = range.entry as usize;
    let mut taken = 0;
    let mut quiet = 0;
    'legs: loop {
        let context = LegContext {
            range,
            moves: &*moves,
            goal,
            hops: &*hops,
        };
        match one_leg(program, lemmas, context, paragraph, taken) {
            ParagraphStep::There => return true,
            ParagraphStep::Nowhere => return false,
            ParagraphStep::On {
                paragraph: next,
                taken: now,
            } => {
                if now > taken {
                    paragraph = next;
                    taken = now;
                    quiet = 0;
                } else if quiet < count {
                    paragraph = next;
                    quiet += 1;
                } else {
                    return false;
                }
            }
        }
    }
}

/// Whether each lemma leads to its return, stepping over the ranges of earlier lemmas alone.
pub fn lemmas_hold(program: &Program, lemmas: &[Lemma]) -> bool
    ensures { IsTrue result ↔ LemmasHold (never_first_of program.now.files) (control_of program.now)
        [] lemmas.now }
{
    for (number, lemma) in lemmas.iter().enumerate() {
        let earlier = &lemmas[..number];
        if !leads(
            program,
            earlier,
            lemma.range,
            lemma.moves.as_slice(),
            Goal::Return,
            &[],
        ) {
            return false;
        }
    }
    true
}

/// The goal of a hop's moves.
pub fn goal_of(fault: FlowFault, hops: &[Hop], number: usize) -> Goal
    requires { number < length hops.now }
    ensures { (front : List Hop) → aim_of result front
        ≡ aim_behind fault (exits_of front) (drop (number + 1) hops.now) }
{
    match hops.get(number + 1) {
        Some(later) => Goal::Enter(later.range),
        None => Goal::Fault(fault),
    }
}

/// Whether each hop leads to the next, and the last one to the fault.
pub fn hops_lead(program: &Program, lemmas: &[Lemma], fault: FlowFault, hops: &[Hop]) -> bool
    ensures { IsTrue result ↔ HopsFrom (never_first_of program.now.files) (control_of program.now)
        (lemma_ranges lemmas.now) fault [] hops.now }
{
    for (number, hop) in hops.iter().enumerate() {
        let goal = goal_of(fault, hops, number);
        let front = &hops[..number + 1];
        if !leads(
            program,
            lemmas,
            hop.range,
            hop.moves.as_slice(),
            goal,
            front,
        ) {
            return false;
        }
    }
    true
}

/// Whether a range is main.
pub fn is_main(range: Range) -> bool
    ensures { IsTrue result ↔ (range ≡ main_range) }
{
    match range.exit {
        Some(_) => false,
        None => range.entry == 0,
    }
}

/// Whether the hops begin in main.
pub fn begins_in_main(hops: &[Hop]) -> bool
    ensures { IsTrue result ↔ IsFirstMain hops.now }
{
    match hops.first() {
        Some(hop) => is_main(hop.range),
        None => false,
    }
}

/// Whether a trail is accepted.
pub fn check(program: &Program, trail: &Trail) -> bool
    ensures { IsTrue result ↔ IsAccepted (never_first_of program.now.files) (control_of program.now)
        trail.now }
{
    let lemmas = trail.lemmas.as_slice();
    let hops = trail.hops.as_slice();
    if !begins_in_main(hops) {
        return false;
    }
    if !lemmas_hold(program, lemmas) {
        return false;
    }
    hops_lead(program, lemmas, trail.fault, hops)
}
