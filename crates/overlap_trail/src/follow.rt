//! Following a trail's moves through statements.

ghost use Rattle.std.specs.Prelude.{Bool, ℕ, List, ◌≡◌, ◌+◌, ◌<◌, ◌≤◌, [], ◌∷◌, length, drop, slice_get, MatchOption};
ghost use Rattle.control_flow_theory.specs.language.Language.{Stmts, also, none, Perform, Performed, GoDepending, Chooser};
ghost use Rattle.control_flow_theory.specs.language.Control.{control_in, perform_of};
ghost use Rattle.program_points.specs.paths.Accepted.{is_range, lemma_ranges};
ghost use Rattle.overlap_trail.specs.Follow.{Known, Follows, Turns, IsTaken, IsBetween, first_arm, first_over, IsArmFirst, IsOverFirst, IsSide, knowing, AreSeveral, Picks, PicksNone, turned_way};

use cob_tree::Control;
use program_points::numbering::{LoopStart, kind_of};
use program_points::paths::{Lemma, Move};

/// The outcome of following moves through statements, with the number of moves taken.
#[derive(Debug, Clone, Copy)]
pub enum Followed {
    /// The statements complete.
    Through(usize),
    /// Control goes to the start of a paragraph.
    To(u32, usize),
    /// Control leaves the sentence.
    Left(usize),
    /// Control goes to the end of the paragraph.
    Ended(usize),
    /// Control goes to the end of the section's last paragraph.
    SectionEnded(usize),
    /// The innermost loop is left.
    Broken(usize),
    /// This turn of the innermost loop is left.
    Cycled(usize),
    /// There is a PERFORM, and no move steps over it.
    Met { entry: u32, exit: u32, taken: usize },
    /// The moves don't lead on.
    Lost,
}

/// Which of two ways is taken.
#[derive(Debug, Clone, Copy)]
pub enum Branch {
    First,
    Second,
    Neither,
}

/// A branch, from 0, and the number of moves taken once it is chosen.
#[derive(Debug, Clone, Copy)]
pub struct BranchChoice {
    pub index: usize,
    pub taken: usize,
}

/// The move after the taken ones.
pub fn next_move(moves: &[Move], taken: usize) -> Option<Move>
    ensures { MatchOption result (drop taken moves.now ≡ [])
        (λ first. (drop taken moves.now ≡ first ∷ drop (taken + 1) moves.now)
        × (taken < length moves.now)) }
{
    moves.get(taken).copied()
}

/// The arm that the move after the taken ones names.
pub fn arm_move(moves: &[Move], taken: usize) -> Option<u32>
    ensures { MatchOption result (first_arm (drop taken moves.now) ≡ None)
        (IsArmFirst moves.now taken) }
{
    match next_move(moves, taken) {
        Some(Move::Arm(number)) => Some(number),
        Some(Move::Over(_)) => None,
        Some(Move::Into) => None,
        None => None,
    }
}

/// The lemma that the move after the taken ones names.
pub fn over_move(moves: &[Move], taken: usize) -> Option<u32>
    ensures { MatchOption result (first_over (drop taken moves.now) ≡ None)
        (IsOverFirst moves.now taken) }
{
    match next_move(moves, taken) {
        Some(Move::Over(number)) => Some(number),
        Some(Move::Arm(_)) => None,
        Some(Move::Into) => None,
        None => None,
    }
}

/// Which of two ways the move after the taken ones names.
pub fn side_of(moves: &[Move], taken: usize) -> Branch
    ensures { IsSide moves.now taken result }
{
    match arm_move(moves, taken) {
        Some(number) => {
            if number == 1 {
                return Branch::First;
            }
            if number == 2 {
                return Branch::Second;
            }
            Branch::Neither
        }
        None => Branch::Neither,
    }
}

/// Which branch is taken: the only one, or of several the one that the move after the taken ones
/// names.
pub fn pick_branch(moves: &[Move], taken: usize, several: bool) -> Option<BranchChoice>
    requires { taken ≤ length moves.now }
    ensures picks { (branches : List Stmts) → AreSeveral several branches → MatchOption result
        (PicksNone moves.now taken branches)
        (λ pick. Picks moves.now taken branches pick.index pick.taken) }
    ensures within { MatchOption result (Unit {0})
        (λ pick. IsBetween taken (length moves.now) pick.taken) }
{
    if !several {
        return Some(BranchChoice { index: 0, taken });
    }
    match arm_move(moves, taken) {
        Some(number) => {
            if number == 0 {
                return None;
            }
            Some(BranchChoice {
                index: number as usize - 1,
                taken: taken + 1,
            })
        }
        None => None,
    }
}

/// Whether the lemma with this number is for this range.
pub fn is_lemma(lemmas: &[Lemma], number: u32, entry: u32, exit: u32) -> bool
    ensures { result ≡ is_range (slice_get (lemma_ranges lemmas.now) number) entry exit }
{
    match lemmas.get(number as usize) {
        Some(lemma) => match lemma.range.exit {
            Some(end) => lemma.range.entry == entry && end == exit,
            None => false,
        },
        None => false,
    }
}

/// Follows moves through a PERFORM without a loop.
pub fn follow_call(
    lemmas: &[Lemma],
    moves: &[Move],
    taken: usize,
    entry: u32,
    exit: u32,
) -> Followed
    requires { taken ≤ length moves.now }
    ensures follows { (never_first : Chooser → Bool) (last : ℕ) →
        Follows (knowing never_first lemmas.now)
        moves.now last taken (also (Perform entry exit) none) result }
    ensures taken { IsTaken taken (length moves.now) result }
{
    match over_move(moves, taken) {
        Some(number) => {
            if is_lemma(lemmas, number, entry, exit) {
                Followed::Through(taken + 1)
            } else {
                Followed::Lost
            }
        }
        None => Followed::Met { entry, exit, taken },
    }
}

/// What the body of a loop comes to, as a turn: `Cycled` where the loop goes on, and `Through`
/// where it is left.
pub fn turned(way: Followed) -> Followed
    ensures { result ≡ turned_way way }
{
    match way {
        Followed::Through(now) => Followed::Cycled(now),
        Followed::Broken(now) => Followed::Through(now),
        Followed::To(to, now) => Followed::To(to, now),
        Followed::Left(now) => Followed::Left(now),
        Followed::Ended(now) => Followed::Ended(now),
        Followed::SectionEnded(now) => Followed::SectionEnded(now),
        Followed::Cycled(now) => Followed::Cycled(now),
        Followed::Met { entry, exit, taken } => Followed::Met { entry, exit, taken },
        Followed::Lost => Followed::Lost,
    }
}

/// Follows moves through what is left of a loop over a PERFORM.
pub fn follow_calls(
    lemmas: &[Lemma],
    moves: &[Move],
    taken: usize,
    entry: u32,
    exit: u32,
) -> Followed
    requires { taken ≤ length moves.now }
    ensures turns { (never_first : Chooser → Bool) (last : ℕ) →
        Turns (knowing never_first lemmas.now)
        moves.now last taken (Performed entry exit) result }
    ensures taken { IsTaken taken (length moves.now) result }
{
    let mut now = taken;
    'turns: loop {
        match side_of(moves, now) {
            Branch::First => return Followed::Through(now + 1),
            Branch::Second => match turned(follow_call(lemmas, moves, now + 1, entry, exit)) {
                Followed::Cycled(behind) => now = behind,
                other => return other,
            },
            Branch::Neither => return Followed::Lost,
        }
    }
}

/// Follows moves through a PERFORM of paragraphs.
pub fn follow_perform(
    lemmas: &[Lemma],
    moves: &[Move],
    taken: usize,
    entry: u32,
    exit: u32,
    control: &Control,
) -> Followed
    requires { taken ≤ length moves.now }
    ensures follows { (never_first : Chooser → Bool) (last : ℕ) →
        Follows (knowing never_first lemmas.now)
        moves.now last taken (also (perform_of (control_in control.now) entry exit) none) result }
    ensures taken { IsTaken taken (length moves.now) result }
{
    let kind = match kind_of(control) {
        None => return follow_call(lemmas, moves, taken, entry, exit),
        Some(kind) => kind,
    };
    match kind {
        LoopStart::Before => follow_calls(lemmas, moves, taken, entry, exit),
        LoopStart::Again => follow_calls(lemmas, moves, taken, entry, exit),
        LoopStart::After => match turned(follow_call(lemmas, moves, taken, entry, exit)) {
            Followed::Cycled(now) => follow_calls(lemmas, moves, now, entry, exit),
            other => other,
        },
    }
}

/// The name with this number, from 0.
pub fn name_at(names: &[u32], index: usize) -> Option<u32>
    ensures { result ≡ slice_get names.now index }
{
    names.get(index).copied()
}

/// Follows moves through a GO TO DEPENDING.
pub fn follow_depending(moves: &[Move], taken: usize, names: &[u32]) -> Followed
    requires { taken ≤ length moves.now }
    ensures follows { (known : Known) (last : ℕ) (on : Chooser) → Follows known moves.now last taken
        (also (GoDepending names.now on) none) result }
    ensures taken { IsTaken taken (length moves.now) result }
{
    if names.is_empty() {
        return Followed::Through(taken);
    }
    match arm_move(moves, taken) {
        Some(number) => {
            if number == 0 {
                return Followed::Lost;
            }
            let index = number as usize - 1;
            match name_at(names, index) {
                Some(name) => Followed::To(name, taken + 1),
                None => {
                    if index == names.len() {
                        Followed::Through(taken + 1)
                    } else {
                        Followed::Lost
                    }
                }
            }
        }
        None => Followed::Lost,
    }
}
