//! Bytes of a source to bytes of the result.
//!
//! `restructure` reads a source, finds out whether a flow path of its program comes to a fault,
//! splits the program into procedures, and prints these, within the limits. What each answer means
//! `specs/Pipeline` says, with a clause each for: the result is structured, it behaves as the
//! source, and it is read back.
#![tactic(auto)]

mod fault;
mod flow;
mod laws;
mod limit;
mod pipeline;
pub mod run;

pub use fault::Refused;
pub use laws::results_read_back;
pub use pipeline::{Done, check, restructure};
