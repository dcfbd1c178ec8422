//! The goal of moves, and whether they have come to it.

ghost use Rattle.std.specs.Prelude.{ℕ, List, [], ◌∷◌, ◌≡◌, ◌≤◌, ◌↔◌, length, drop, IsTrue};
ghost use Rattle.program_points.specs.paths.Step.{Ends, Calls, Point};
ghost use Rattle.program_points.specs.paths.Flow.{is_exit, is_among};
ghost use Rattle.program_points.specs.paths.Accepted.{Meets, with_exit};
ghost use Rattle.program_points.specs.declared.paths.trail.Move.TheVariants.{Into};
ghost use Rattle.overlap_trail.specs.Checking.{aim_of, exits_of, top_is, below_is};

use crate::follow::next_move;
use cob_tree::{FlowFault, Range};
use program_points::paths::{Hop, Move};

/// The goal of moves.
#[derive(Debug, Clone, Copy)]
pub enum Goal {
    /// The range's return.
    Return,
    /// A PERFORM of this range, entered by the last move.
    Enter(Range),
    /// This fault.
    Fault(FlowFault),
}

/// The moves that are followed through a range, with their goal, and the hops before this one.
#[derive(Debug, Clone, Copy)]
pub struct LegContext<'a> {
    pub range: Range,
    pub moves: &'a [Move],
    pub goal: Goal,
    pub hops: &'a [Hop],
}

/// Whether a paragraph is among the exits of hops.
#[derive(Debug, Clone, Copy)]
pub struct ExitPosition {
    /// It is the last hop's exit.
    pub top: bool,
    /// It is an earlier hop's exit.
    pub below: bool,
}

/// Whether a paragraph is among the exits, once a hop with this exit was added.
pub fn pushed(standing: ExitPosition, exit: Option<u32>, paragraph: usize) -> ExitPosition
    ensures top { (ends : List ℕ) → standing.top ≡ top_is paragraph ends →
        result.top ≡ top_is paragraph (with_exit exit ends) }
    ensures below { (ends : List ℕ) → standing.top ≡ top_is paragraph ends →
        standing.below ≡ below_is paragraph ends → result.below
        ≡ below_is paragraph (with_exit exit ends) }
{
    match exit {
        Some(end) => ExitPosition {
            top: end as usize == paragraph,
            below: standing.top || standing.below,
        },
        None => standing,
    }
}

/// Whether a paragraph is among the exits of these hops.
pub fn standing_of(hops: &[Hop], paragraph: usize) -> ExitPosition
    ensures top { result.top ≡ top_is paragraph (exits_of hops.now) }
    ensures below { result.below ≡ below_is paragraph (exits_of hops.now) }
{
    let mut standing = ExitPosition {
        top: false,
        below: false,
    };
    for hop in hops {
        standing = pushed(standing, hop.range.exit, paragraph);
    }
    standing
}

/// Whether one of the hops ends with this paragraph.
#[tactic(auto, using(crate::proofs::Meeting::among_stands))]
pub fn is_pending(hops: &[Hop], paragraph: usize) -> bool
    ensures { result ≡ is_among paragraph (exits_of hops.now) }
{
    let standing = standing_of(hops, paragraph);
    standing.top || standing.below
}

/// Whether the range ends with this paragraph.
pub fn ends_at(exit: Option<u32>, paragraph: usize) -> bool
    ensures { result ≡ is_exit exit paragraph }
{
    match exit {
        Some(end) => end as usize == paragraph,
        None => false,
    }
}

/// Whether this paragraph's end meets the goal.
pub fn meets_end(context: LegContext<'_>, paragraph: usize, taken: usize) -> bool
    requires { taken ≤ length context.moves.now }
    ensures { IsTrue result ↔ Meets (aim_of context.entry.goal context.entry.hops.now)
        context.entry.range (Ends paragraph) (drop taken context.entry.moves.now) }
{
    if taken < context.moves.len() {
        return false;
    }
    match context.goal {
        Goal::Return => ends_at(context.range.exit, paragraph),
        Goal::Enter(_) => false,
        Goal::Fault(FlowFault::Overlap(at)) => {
            let standing = standing_of(context.hops, paragraph);
            at as usize == paragraph && standing.below && !standing.top
        }
        Goal::Fault(FlowFault::Reentry(_)) => false,
    }
}

/// Whether one move is left, and it goes into a range.
pub fn last_into(moves: &[Move], taken: usize) -> bool
    ensures { IsTrue result ↔ (drop taken moves.now ≡ Into ∷ []) }
{
    match next_move(moves, taken) {
        Some(Move::Into) => taken + 1 == moves.len(),
        Some(Move::Arm(_)) => false,
        Some(Move::Over(_)) => false,
        None => false,
    }
}

/// Whether this PERFORM meets the goal.
pub fn meets_call(context: LegContext<'_>, entry: u32, exit: u32, taken: usize) -> bool
    requires { taken ≤ length context.moves.now }
    ensures { (after : Point) → IsTrue result
        ↔ Meets (aim_of context.entry.goal context.entry.hops.now) context.entry.range
        (Calls entry exit after) (drop taken context.entry.moves.now) }
{
    match context.goal {
        Goal::Return => false,
        Goal::Enter(called) => match called.exit {
            Some(end) => last_into(context.moves, taken) && called.entry == entry && end == exit,
            None => false,
        },
        Goal::Fault(FlowFault::Overlap(_)) => false,
        Goal::Fault(FlowFault::Reentry(at)) => {
            if taken < context.moves.len() {
                return false;
            }
            at == exit && is_pending(context.hops, exit as usize)
        }
    }
}
