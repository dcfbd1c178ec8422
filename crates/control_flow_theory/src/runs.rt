//! Laws of runs.
//!
//! A program's meaning takes a world and a number of steps to a run: what was shown, and whether it
//! is over, and how. Two meanings are tied where each shows all that the other shows, within a
//! number of steps that grows linearly. The laws hold for all types of worlds, events, ends and
//! states. Nothing here runs: a call of these functions does nothing, and their contracts are the
//! laws.

pub mod machine;
pub mod tie;
