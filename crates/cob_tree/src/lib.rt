//! A program as a tree: its files, the entries of its data, and its paragraphs of sentences of
//! statements, as ISO 1989:1985 has them, with the places, expressions and conditions in them.
//!
//! A tree is plain data: its lists are `Items` and its boxes `Boxed`, which contracts see as the
//! list and as the value, so that two trees are equal exactly where they say the same. Each type
//! of it has a copy, by `Copied`, and the copy equals what it copies.
//!
//! Paragraphs, entries and files are named by their place in the program's lists, from 0. An item
//! number from 2^31 upward names an item that restructuring added.
#![tactic(auto)]

mod calc;
mod choice;
mod cond;
mod control;
mod depth;
mod digits;
mod ending;
mod entry;
mod fault;
mod file;
mod number;
mod parts;
mod picture;
mod place;
mod places;
mod program;
mod stmt;

pub use calc::{Calc, Target};
pub use choice::{Subject, Test};
pub use cond::{ClassKind, Cond, Rel, SignKind};
pub use control::Control;
pub use digits::{SpelledDigits, digits_value, is_digit};
pub use ending::{Abend, FlowFault};
pub use entry::{Entry, Span};
pub use fault::{NameFault, ParseError, ParseFault, SplitFault};
pub use file::{FileEntry, How, Opening};
pub use number::Number;
pub use parts::{ArmParts, StmtParts};
pub use picture::{Picture, Sign, Usage};
pub use place::{Expr, Figure, Op, Operand, Place, Sub, Window};
pub use program::{Paragraph, Program, Range, Sentence};
pub use stmt::{Arms, Stmt, When};
