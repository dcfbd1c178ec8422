//! Where a rest goes on.

ghost use Rattle.std.specs.Prelude.{◌≡◌, ◌+◌, ◌<◌, ◌^◌, sum_by};
ghost use Rattle.cob_tree.specs.Places.{stmt_places};
ghost use Rattle.lowering_labels.specs.points.JumpTarget.{IsGoing, IsJumpTarget, point_of};

use crate::points::layout::PlaceTable;
use branch_tree::Label;
use cob_tree::Stmt;

/// An end without a choice, where a rest goes on.
#[derive(Clone, Copy)]
pub enum JumpTarget {
    Jump(Label),
    Return,
    Stop,
}

/// The point before a place.
pub fn point(place: u32) -> Label
    ensures { result ≡ point_of place }
{
    Label { place, part: 0 }
}

/// Where control goes at the head of a rest, as far as the rest's continuation needs it.
#[derive(Clone, Copy)]
pub enum Going {
    /// The statement does nothing.
    Past,
    /// To a paragraph.
    To(u32),
    /// The run stops.
    Stops,
    /// To the statement itself.
    Here,
}

fn way_of(stmt: &Stmt) -> Going
    ensures { IsGoing stmt.now result }
{
    match stmt {
        Stmt::Exit => Going::Past,
        Stmt::Continue => Going::Past,
        Stmt::Go(to) => Going::To(*to),
        Stmt::StopRun => Going::Stops,
        Stmt::Display { .. } => Going::Here,
        Stmt::Move { .. } => Going::Here,
        Stmt::Arith { .. } => Going::Here,
        Stmt::SetTrue(_) => Going::Here,
        Stmt::Opens(_) => Going::Here,
        Stmt::Closes(_) => Going::Here,
        Stmt::Read { .. } => Going::Here,
        Stmt::Write { .. } => Going::Here,
        Stmt::Rewrite { .. } => Going::Here,
        Stmt::If { .. } => Going::Here,
        Stmt::Evaluate { .. } => Going::Here,
        Stmt::Loop { .. } => Going::Here,
        Stmt::Perform { .. } => Going::Here,
        Stmt::GoDepending { .. } => Going::Here,
        Stmt::NextSentence => Going::Here,
        Stmt::ExitParagraph => Going::Here,
        Stmt::ExitSection => Going::Here,
        Stmt::ExitPerform { .. } => Going::Here,
    }
}

/// Where a rest that begins with these statements, from a place on, goes on, with that continuation
/// after them.
pub fn jump_target_of(
    stmts: &[Stmt],
    place: u32,
    layout: &PlaceTable,
    after: JumpTarget,
) -> JumpTarget
    requires { place + sum_by stmt_places stmts.now < 2 ^ 32 }
    ensures { IsJumpTarget layout.now.places.items layout.now.end stmts.now place after result }
{
    let mut here = place;
    for stmt in stmts {
        match way_of(stmt) {
            Going::Past => here += 1,
            Going::To(to) => return JumpTarget::Jump(point(layout.place_of(to))),
            Going::Stops => return JumpTarget::Stop,
            Going::Here => return JumpTarget::Jump(point(here)),
        }
    }
    after
}
