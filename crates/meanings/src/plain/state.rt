//! The state of a plain program as it runs.

use cob_base::{Items, Text};
use cob_tree::{FlowFault, Stmt};

/// What is still to do in a paragraph.
#[derive(Debug, Drop)]
pub enum Item {
    Stmt(Stmt),
    SentenceEnd,
}

/// A return that is pending: the paragraph at whose end it is made, with the paragraph and the rest
/// to go on with.
#[derive(Debug, Drop)]
pub struct Waiting {
    pub end: u32,
    pub paragraph: u32,
    pub rest: Items<Item>,
}

/// What a run comes to.
#[derive(Clone, Copy, Debug, PartialEq, Eq)]
pub enum Over {
    Stopped,
    Fault(FlowFault),
}

/// The state of a run without files. The pending return that was made last comes first.
#[derive(Debug, Drop)]
pub struct PlainState {
    pub paragraph: u32,
    pub rest: Items<Item>,
    pub pending: Items<Waiting>,
    /// All bytes that were shown.
    pub shown: Text,
    pub over: Option<Over>,
}
