//! Reads the statements that hold no others (ISO 1989:1985, PROCEDURE DIVISION), over any readers
//! of their parts (`Parts`).
//!
//! `verbs` has those without arithmetic, `arithmetic` the five arithmetic statements up to their
//! arms. Each function reads exactly by the form of its name in `cobol_grammar::stmt_forms`, which
//! is what is to be compared with the standard.
#![tactic(auto)]

pub mod arithmetic;
pub mod verbs;
