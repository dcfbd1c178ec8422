//! The rests of a program by place: the statements from there to the end of their list, and where
//! control goes on after them.
//!
//! One table serves all ranges: in it a paragraph's end is a return, which a range replaces by
//! where it goes on there.

mod continuation;
mod paragraphs;
mod statements;

pub use crate::continuations::continuation::{Continuation, Successors, ended_by};
pub use crate::continuations::paragraphs::continuations_of;
