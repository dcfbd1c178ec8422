//! What COBOL programs do (ISO 1989:1985, PROCEDURE DIVISION): the meaning that every promise is
//! about.
//!
//! `specs/statements` says what each simple statement does, and docs/MEANING.md has the same as a
//! table, to be compared with it. `plain` has one step of a program of the plain form, as code for
//! tests, and the laws on when two programs behave the same.
#![tactic(auto)]

pub mod plain;
