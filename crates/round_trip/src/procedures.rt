//! The table of procedures that a program's own paragraphs declare, with which what is printed of
//! it is read: the printed tokens declare exactly this table, those of its source the same except
//! for places, and in it each label of a paragraph names what it has to. Nothing here runs.

mod laws;
pub mod readable_exprs;
pub mod readable_stmts;

pub use crate::procedures::laws::{
    named_paragraphs_are_outlined, printable_names_are_titles, printed_headers_are_own,
    printed_labels_are_own, printed_procedures_are_told, read_procedures_are_own,
};
