//! What each part of the grammar gives where no fault of a name is noted: items, files and
//! paragraphs that are there, valid numbers, and lists that aren't empty.
//!
//! Begin with `specs/well_scoped/named_stmts/Parts.antt`, which says what the open forms of
//! statements have to give; `named_exprs` says it of operands and conditions, and `named_division`
//! of the whole PROCEDURE DIVISION. `specs/well_scoped/named_entries/Entries.antt` and
//! `specs/well_scoped/named_data/Drafts.antt` treat what comes before it. Nothing here runs.

pub mod named_data;
pub mod named_division;
pub mod named_entries;
pub mod named_exprs;
pub mod named_stmts;
pub mod named_tokens;
