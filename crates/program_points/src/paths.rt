//! The paths that control can take through a program, whatever its data, and the trails that show
//! a fault on one.
//!
//! `specs/paths/Step.antt` says what a step does to control: each way of an item is the local step
//! of the theory of control, where the parts choose that way. `specs/paths/Flow.antt` has flow
//! paths, free and up to a fault, and what a summary means by them; `specs/paths/Levels.antt` the
//! same inside one range's level; `specs/paths/Accepted.antt` the trails. There is no code here:
//! each function states a law.

pub mod laws;
mod trail;

pub use crate::paths::trail::{Hop, Lemma, Move, Trail};
