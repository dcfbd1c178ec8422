//! A rest at its place.

ghost use Rattle.std.specs.Prelude.{◌≡◌};
ghost use Rattle.lowering_labels.specs.points.JumpTarget.{seen_target};
ghost use Rattle.statement_lowering.specs.continuations.Successors.{ended};

use cob_tree::Stmt;
use lowering_labels::points::JumpTarget;

/// Where control goes on from a rest, in any range: a return stands for the paragraph's end.
#[derive(Clone, Copy)]
pub struct Successors {
    /// After the rest's list.
    pub after: JumpTarget,
    /// The place at which the tree goes on after the list; none where it ends there.
    pub behind: Option<u32>,
    /// After the sentence.
    pub sentence: JumpTarget,
    /// After the innermost loop, and at its next turn.
    pub behind_loop: JumpTarget,
    pub cycle: JumpTarget,
    /// The paragraph, and the last one of its section.
    pub paragraph: u32,
    pub last: u32,
}

/// The statements at a place and after it in their list. Nothing is copied.
#[derive(Clone, Copy)]
pub struct Continuation<'a> {
    pub stmts: &'a [Stmt],
    pub onward: Successors,
}

/// The continuation, with this one for the paragraph's end.
pub fn ended_by(leaf: &JumpTarget, end: &JumpTarget) -> JumpTarget
    ensures { seen_target result ≡ ended (seen_target end.now) leaf.now }
{
    match leaf {
        JumpTarget::Jump(to) => JumpTarget::Jump(*to),
        JumpTarget::Return => *end,
        JumpTarget::Stop => JumpTarget::Stop,
    }
}
