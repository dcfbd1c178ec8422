//! How the IDENTIFICATION, ENVIRONMENT and DATA DIVISIONs are spelled (ISO 1989:1985): a form for
//! each header, clause and entry, over a form of the status items, which is left open.
//!
//! What is read are drafts: what a text says, with the positions of possible faults of names. The
//! rules on them are in crates above. `divisions_are_read` says that each form reads what it spells
//! and nothing else, and stops at the first fault. The crate has no code that reads.

mod draft;
mod laws;

pub use crate::data_forms::draft::{
    Clause, DataDraft, Divisions, EntryDraft, FdDraft, SelectDraft, SpanDraft, StatusDraft,
    ThruDraft,
};
pub use crate::data_forms::laws::{Refers, divisions_are_read};
