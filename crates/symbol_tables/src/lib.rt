//! The names of a program: what a reference to data, a file or a procedure stands for.
//!
//! `data_names` looks references up among files and entries, with qualification (ISO 1989:1985,
//! uniqueness of reference); `procedure_names` finds paragraphs and sections by their headers,
//! before statements are read. Each call answers exactly what `specs` says of its table, or out of
//! memory.
#![tactic(auto)]

pub mod data_names;
pub mod procedure_names;
