//! What lowering carries with it through statements.

ghost use Rattle.std.specs.Prelude.{◌≡◌, ◌≤◌, drop, length};

use cob_base::Items;
use cob_tree::{FileEntry, Stmt};
use lowering_labels::points::{JumpTarget, PlaceTable};

/// What lowering knows of the program: the files, the exits of the ranges that return by their
/// entries, and the places of paragraphs.
#[derive(Clone, Copy)]
pub struct LoweringContext<'a> {
    pub files: &'a [FileEntry],
    pub returning: &'a [Items<u32>],
    pub layout: &'a PlaceTable,
}

/// Where control that leaves a rest goes on: after its sentence, at the end of its paragraph or of
/// the last one of its section, after the innermost loop that holds it, and at the next turn of
/// that loop.
#[derive(Clone, Copy)]
pub struct EscapeTargets {
    pub sentence: JumpTarget,
    pub paragraph: JumpTarget,
    pub section: JumpTarget,
    pub behind_loop: JumpTarget,
    pub cycle: JumpTarget,
}

/// What a rest is lowered with: what is known of the program, where control that leaves the rest
/// goes on, and the continuation after it.
#[derive(Clone, Copy)]
pub struct RestContext<'a> {
    pub telling: &'a LoweringContext<'a>,
    pub leaving: &'a EscapeTargets,
    pub after: &'a JumpTarget,
}

/// The statements from an index on.
pub fn rest_at(stmts: &[Stmt], at: usize) -> &[Stmt]
    requires { at ≤ length stmts.now }
    ensures { result.now ≡ drop at stmts.now }
{
    &stmts[at..]
}
