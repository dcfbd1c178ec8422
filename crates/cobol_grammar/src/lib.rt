//! The closed grammar of the PROCEDURE DIVISION (ISO 1989:1985): the forms of `stmt_forms` over
//! operands as `expr_forms` spells them, conditions as `cond_forms` does, names of data and files
//! as `symbol_tables::data_names` finds them, and procedures as `symbol_tables::procedure_names`
//! finds them.
//!
//! `specs/Use` is to be compared with the uses of operands that docs/LANGUAGE.md lists,
//! `specs/Name` with names of files, records and procedures. `grammar_is_read` says that statements
//! and the whole division read what they spell and nothing else, and stop at the first fault. The
//! crate has no code that reads.
#![tactic(auto)]

pub mod cond_forms;
pub mod data_forms;
pub mod expr_forms;
mod laws;
pub mod part_readers;
pub mod stmt_forms;
pub mod stmt_levels;
mod subject_kind;

pub use laws::{grammar_is_read, subjects_are_compared};
pub use subject_kind::SubjectKind;
