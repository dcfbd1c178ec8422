//! What is read of a statement before the statements that it holds.

use cob_tree::{Control, Place, Stmt};

/// Which statement of arithmetic.
#[derive(Clone, Copy, Debug, PartialEq, Eq)]
pub enum ArithmeticVerb {
    Add,
    Subtract,
    Multiply,
    Divide,
    Compute,
}

/// What is found where a phrase with NOT may be.
#[derive(Clone, Copy, Debug, PartialEq, Eq)]
pub enum NotPhrase {
    Missing,
    /// NOT and the statement's own phrase.
    Own,
    /// NOT, which belongs to a statement further out.
    Foreign,
}

/// READ up to its arms.
#[derive(Debug, Drop)]
pub enum ReadHead {
    /// A whole READ of a file, and NEXT SENTENCE after it.
    WithSentence(u32),
    Open { file: u32, into: Option<Place> },
}

/// PERFORM up to what it holds, if it holds statements.
#[derive(Debug, Drop)]
pub enum PerformHead {
    /// A whole statement, and whether a NOT was read after it that isn't its own.
    Whole(Stmt, bool),
    Inline(Control),
}
