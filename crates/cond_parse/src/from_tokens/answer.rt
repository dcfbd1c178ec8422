//! What is answered.

ghost use Rattle.std.specs.Prelude.{◌≡◌};
ghost use Rattle.cond_parse.specs.from_tokens.Answer as answers;

use cob_tree::{Cond, Expr, NameFault};
use parser_combinators::Note;
use parser_combinators::faults::name_fault;

/// A condition, and what comes after it.
#[derive(Debug, Drop)]
pub struct CondPart {
    pub cond: Cond,
    /// The number of the token after it, from 0; a NOT that isn't its own counts as after it.
    pub next: usize,
    /// The first name fault in it.
    pub fault: Option<NameFault>,
}

/// An expression, and what comes after it.
#[derive(Debug, Drop)]
pub struct ExprPart {
    pub expr: Expr,
    /// The number of the token after it, from 0.
    pub next: usize,
    /// The first name fault in it.
    pub fault: Option<NameFault>,
}

/// A noted fault with its line alone.
pub fn noted_fault(note: Option<Note>) -> Option<NameFault>
    ensures { result ≡ answers.noted_fault note }
{
    match note {
        None => None,
        Some(note) => Some(name_fault(note.kind, note.position.line)),
    }
}

/// How many of the tokens that were read come after the condition.
pub fn unread(pending_not: bool) -> usize
    ensures { result ≡ answers.unread pending_not }
{
    if pending_not { 1 } else { 0 }
}
