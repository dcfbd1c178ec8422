//! What is still to do.

use cob_tree::{Cond, Operand, Place, Sentence, Stmt};

/// What a loop does in a turn.
#[derive(Clone, Copy)]
pub enum Body<'a> {
    Nested(&'a [Stmt]),
    Performed { entry: u32, exit: u32 },
}

/// What is left of a loop: so many turns, or a test before each.
#[derive(Clone, Copy)]
pub enum LoopProgress<'a> {
    Counted(u128),
    Tests(&'a Cond),
    /// VARYING tested before; `reached` says that the test was made at least once.
    Steps {
        reached: bool,
        item: &'a Place,
        by: &'a Operand,
        until: &'a Cond,
    },
    /// VARYING tested after.
    StepsAfter {
        item: &'a Place,
        by: &'a Operand,
        until: &'a Cond,
    },
}

/// A part of what is still to do. The statements are the program's own: nothing is copied.
#[derive(Clone, Copy)]
pub enum Frame<'a> {
    Stmts(&'a [Stmt]),
    /// A range that is performed once.
    Enter { entry: u32, exit: u32 },
    /// The end of a sentence, and the sentences after it in its paragraph.
    Sentences(&'a [Sentence]),
    /// What is left of a loop.
    Turn(LoopProgress<'a>, Body<'a>),
    /// A range was performed: it returns at the end of the paragraph `end` into `paragraph`, where
    /// the frames below this one are still to do.
    Return { end: u32, paragraph: u32 },
}
