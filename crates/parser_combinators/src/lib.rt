//! The forms in which a grammar over tokens is written, and the cursor that reads by them.
//!
//! A grammar is written once, as forms in `specs`. A form gives what is spelled, where a text may
//! stop, and what a parser answers; a parser's function mirrors its form over a `Cursor`. Each
//! maker of forms has its law in `proofs/MakerLaws`, from which every lawful form is sound,
//! complete and unique, and stops at the first fault (`IsReader`). `forms_are_read` and
//! `levels_only_add` say so of a small grammar that uses each maker.
#![tactic(auto)]

mod cursor;
pub mod example;
pub mod faults;
mod laws;
mod note;
mod why;
pub mod words;

pub use cursor::Cursor;
pub use laws::{forms_are_read, levels_only_add};
pub use note::{NameKind, Note, Position};
pub use why::{Unread, Why};
