//! Following a trail's moves through statements of the tree.

ghost use Rattle.std.specs.Prelude.{[], ◌∷◌, ℕ, ◌≤◌, length, slice_get};
ghost use Rattle.cob_tree.specs.declared.stmt.Arms.{out-Arms};
ghost use Rattle.control_flow_theory.specs.language.Language.{also, none, Nested};
ghost use Rattle.control_flow_theory.specs.language.Control.{seen, seen_stmts, control_in, loop_of};
ghost use Rattle.program_points.specs.numbering.Build.{seen_branches};
ghost use Rattle.overlap_trail.specs.Follow.{known_of, Follows, FollowsBranches, FollowsBoth, FollowsArm, Turns, IsTaken};

use crate::follow::{
    Branch, Followed, follow_depending, follow_perform, pick_branch, side_of, turned,
};
use cob_base::Items;
use cob_tree::{Arms, Control, FileEntry, Stmt, When};
use program_points::numbering::{LoopStart, is_silent, kind_of};
use program_points::paths::{Lemma, Move};

/// Follows moves through a statement.
#[cycle(follow)]
pub fn follow_stmt(
    files: &[FileEntry],
    lemmas: &[Lemma],
    moves: &[Move],
    taken: usize,
    stmt: &Stmt,
) -> Followed
    requires { taken ≤ length moves.now }
    ensures follows { (last : ℕ) → Follows (known_of files.now lemmas.now) moves.now last taken
        (also (seen last stmt.now) none) result }
    ensures taken { IsTaken taken (length moves.now) result }
{
    match stmt {
        Stmt::Arith { arms, .. } => follow_arms(files, lemmas, moves, taken, arms, false),
        Stmt::Read { file, arms, .. } => {
            let silent = is_silent(files, *file);
            follow_arms(files, lemmas, moves, taken, arms, silent)
        }
        Stmt::If { yes, no, .. } => match side_of(moves, taken) {
            Branch::First => follow_stmts(files, lemmas, moves, taken + 1, yes),
            Branch::Second => follow_stmts(files, lemmas, moves, taken + 1, no),
            Branch::Neither => Followed::Lost,
        },
        Stmt::Evaluate { whens, other, .. } => {
            match pick_branch(moves, taken, whens.len() > 0) {
                Some(pick) => {
                    if pick.index != whens.len() {
                        return follow_when(files, lemmas, moves, pick.taken, whens, pick.index);
                    }
                    match other {
                        Some(stmts) => follow_stmts(files, lemmas, moves, pick.taken, stmts),
                        None => Followed::Through(pick.taken),
                    }
                }
                None => Followed::Lost,
            }
        }
        Stmt::Loop { control, body } => follow_loop(files, lemmas, moves, taken, control, body),
        Stmt::Perform {
            entry,
            exit,
            control,
        } => follow_perform(lemmas, moves, taken, *entry, *exit, control),
        Stmt::Go(to) => Followed::To(*to, taken),
        Stmt::GoDepending { to, .. } => follow_depending(moves, taken, to.as_slice()),
        Stmt::NextSentence => Followed::Left(taken),
        Stmt::StopRun => Followed::Lost,
        Stmt::ExitParagraph => Followed::Ended(taken),
        Stmt::ExitSection => Followed::SectionEnded(taken),
        Stmt::ExitPerform { cycle } => {
            if *cycle {
                Followed::Cycled(taken)
            } else {
                Followed::Broken(taken)
            }
        }
        Stmt::Display { .. } => Followed::Through(taken),
        Stmt::Move { .. } => Followed::Through(taken),
        Stmt::SetTrue(_) => Followed::Through(taken),
        Stmt::Opens(_) => Followed::Through(taken),
        Stmt::Closes(_) => Followed::Through(taken),
        Stmt::Write { .. } => Followed::Through(taken),
        Stmt::Rewrite { .. } => Followed::Through(taken),
        Stmt::Exit => Followed::Through(taken),
        Stmt::Continue => Followed::Through(taken),
    }
}

/// Follows moves through these statements, where the first way takes them.
#[cycle(follow)]
pub fn follow_first(
    files: &[FileEntry],
    lemmas: &[Lemma],
    moves: &[Move],
    taken: usize,
    stmts: &Items<Stmt>,
) -> Followed
    requires { taken ≤ length moves.now }
    ensures follows { (last : ℕ) →
        FollowsBranches (known_of files.now lemmas.now) moves.now last taken
        (seen_stmts last stmts.now ∷ none ∷ []) result }
    ensures taken { IsTaken taken (length moves.now) result }
{
    match side_of(moves, taken) {
        Branch::First => follow_stmts(files, lemmas, moves, taken + 1, stmts),
        Branch::Second => Followed::Through(taken + 1),
        Branch::Neither => Followed::Lost,
    }
}

/// Follows moves through these statements, where the second way takes them.
#[cycle(follow)]
pub fn follow_second(
    files: &[FileEntry],
    lemmas: &[Lemma],
    moves: &[Move],
    taken: usize,
    stmts: &Items<Stmt>,
) -> Followed
    requires { taken ≤ length moves.now }
    ensures follows { (last : ℕ) →
        FollowsBranches (known_of files.now lemmas.now) moves.now last taken
        (none ∷ seen_stmts last stmts.now ∷ []) result }
    ensures taken { IsTaken taken (length moves.now) result }
{
    match side_of(moves, taken) {
        Branch::First => Followed::Through(taken + 1),
        Branch::Second => follow_stmts(files, lemmas, moves, taken + 1, stmts),
        Branch::Neither => Followed::Lost,
    }
}

/// Follows moves through the arms of READ or of arithmetic.
#[cycle(follow)]
pub fn follow_arms(
    files: &[FileEntry],
    lemmas: &[Lemma],
    moves: &[Move],
    taken: usize,
    arms: &Arms,
    silent: bool,
) -> Followed
    requires { taken ≤ length moves.now }
    ensures follows { (last : ℕ) → FollowsBoth (known_of files.now lemmas.now) moves.now last taken
        (out-Arms arms.now).first (out-Arms arms.now).second silent result }
    ensures taken { IsTaken taken (length moves.now) result }
{
    match &arms.first {
        None => match &arms.second {
            None => Followed::Through(taken),
            Some(stmts) => {
                if silent {
                    follow_stmts(files, lemmas, moves, taken, stmts)
                } else {
                    follow_second(files, lemmas, moves, taken, stmts)
                }
            }
        },
        Some(stmts) => match &arms.second {
            None => follow_first(files, lemmas, moves, taken, stmts),
            Some(others) => match side_of(moves, taken) {
                Branch::First => follow_stmts(files, lemmas, moves, taken + 1, stmts),
                Branch::Second => follow_stmts(files, lemmas, moves, taken + 1, others),
                Branch::Neither => Followed::Lost,
            },
        },
    }
}

/// Follows moves through the WHEN with this number, from 0.
#[cycle(follow)]
pub fn follow_when(
    files: &[FileEntry],
    lemmas: &[Lemma],
    moves: &[Move],
    taken: usize,
    whens: &Items<When>,
    index: usize,
) -> Followed
    requires { taken ≤ length moves.now }
    ensures follows { (last : ℕ) → FollowsArm (known_of files.now lemmas.now) moves.now last taken
        (slice_get (seen_branches last whens.now) index) result }
    ensures taken { IsTaken taken (length moves.now) result }
{
    for (number, when) in whens.as_slice().iter().enumerate() {
        if number == index {
            return follow_stmts(files, lemmas, moves, taken, &when.stmts);
        }
    }
    Followed::Lost
}

/// Follows moves through an inline PERFORM.
#[cycle(follow)]
pub fn follow_loop(
    files: &[FileEntry],
    lemmas: &[Lemma],
    moves: &[Move],
    taken: usize,
    control: &Control,
    body: &Items<Stmt>,
) -> Followed
    requires { taken ≤ length moves.now }
    ensures follows { (last : ℕ) → Follows (known_of files.now lemmas.now) moves.now last taken
        (also (loop_of (control_in control.now) (seen_stmts last body.now)) none) result }
    ensures taken { IsTaken taken (length moves.now) result }
{
    let kind = match kind_of(control) {
        None => return follow_stmts(files, lemmas, moves, taken, body),
        Some(kind) => kind,
    };
    match kind {
        LoopStart::Before => follow_turns(files, lemmas, moves, taken, body),
        LoopStart::Again => follow_turns(files, lemmas, moves, taken, body),
        LoopStart::After => match turned(follow_stmts(files, lemmas, moves, taken, body)) {
            Followed::Cycled(now) => follow_turns(files, lemmas, moves, now, body),
            other => other,
        },
    }
}

/// Follows moves through what is left of a loop.
#[cycle(follow)]
pub fn follow_turns(
    files: &[FileEntry],
    lemmas: &[Lemma],
    moves: &[Move],
    taken: usize,
    body: &Items<Stmt>,
) -> Followed
    requires { taken ≤ length moves.now }
    ensures turns { (last : ℕ) → Turns (known_of files.now lemmas.now) moves.now last taken
        (Nested (seen_stmts last body.now)) result }
    ensures taken { IsTaken taken (length moves.now) result }
{
    let mut now = taken;
    'turns: loop {
        match side_of(moves, now) {
            Branch::First => return Followed::Through(now + 1),
            Branch::Second => match turned(follow_stmts(files, lemmas, moves, now + 1, body)) {
                Followed::Cycled(behind) => now = behind,
                other => return other,
            },
            Branch::Neither => return Followed::Lost,
        }
    }
}

/// Follows moves through statements.
#[cycle(follow)]
pub fn follow_stmts(
    files: &[FileEntry],
    lemmas: &[Lemma],
    moves: &[Move],
    taken: usize,
    stmts: &Items<Stmt>,
) -> Followed
    requires { taken ≤ length moves.now }
    ensures follows { (last : ℕ) → Follows (known_of files.now lemmas.now) moves.now last taken
        (seen_stmts last stmts.now) result }
    ensures taken { IsTaken taken (length moves.now) result }
{
    let mut now = taken;
    for stmt in stmts.as_slice() {
        match follow_stmt(files, lemmas, moves, now, stmt) {
            Followed::Through(behind) => now = behind,
            other => return other,
        }
    }
    Followed::Through(now)
}
