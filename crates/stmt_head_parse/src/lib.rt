//! Reads what a statement has before and between the statements that it holds (ISO 1989:1985,
//! PROCEDURE DIVISION), over any readers of its parts (`Parts`).
//!
//! `heads` has IF, EVALUATE, READ and the arms of arithmetic, `perform` PERFORM. Each function
//! reads exactly by the form of its name in `cobol_grammar::stmt_forms`, which is what is to be
//! compared with the standard.
#![tactic(auto)]

pub mod heads;
pub mod perform;
