//! The laws on whole programs: on each program that is read, on what it is restructured to, and on
//! generated ones. Nothing here runs.
//!
//! Begin with `readable_results` and `read_headline` in `results`: a result is structured, behaves
//! as its source and is read back. `read_programs` has what these are built on, a module for each
//! fact, and `generated` shows that each generated program is read back too. `rewriting` says that the
//! graphs on the way to a result are sound families, which do what the program does.
#![tactic(auto)]

pub mod generated;
pub mod read_programs;
pub mod results;
pub mod rewriting;
