//! How the PROCEDURE DIVISION is spelled: a form for each statement, sentence, paragraph and
//! section (ISO 1989:1985, PROCEDURE DIVISION), over forms of operands, references, conditions and
//! names that are left open (`specs/stmt_forms/Part.antt`).
//!
//! `statements_are_read` says of them, whatever lawful forms they are built on, that each reads
//! what it spells and nothing else, and stops at the first fault. The crate has no code that reads.

mod head;
mod laws;
mod outline;
mod phrase;
mod scope;
mod whens;

pub use crate::stmt_forms::head::{ArithmeticVerb, NotPhrase, PerformHead, ReadHead};
pub use crate::stmt_forms::laws::{Made, statements_are_read};
pub use crate::stmt_forms::outline::Outline;
pub use crate::stmt_forms::phrase::Phrase;
pub use crate::stmt_forms::scope::Scope;
pub use crate::stmt_forms::whens::Whens;
