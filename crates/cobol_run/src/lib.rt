//! A COBOL program, run step by step.
//!
//! A `Machine` keeps what is still to do as a stack of frames that point into the program: the
//! statements of a list, the sentences after one, what is left of a loop, and the returns that are
//! pending. `Machine::step` makes exactly the step of the source machine (`step_in` of
//! `cobol_meaning`): in every world, where the program has no statement on files, and otherwise
//! over devices whose files are known (`FollowsOver` in specs/Over.antt). `state_in` in
//! specs/Machine.antt says which `SourceState` a machine is in. `next_step` says what the head of
//! the rest comes to, `statement` what each statement does and `filing` what those on files do (ISO
//! 1989:1985, PROCEDURE DIVISION). `events` makes a run step by step whose events can be read.
#![tactic(auto)]

pub mod constant_places;
pub mod events;
mod filing;
mod frame;
mod frames;
mod held;
mod machine;
mod next_step;
mod running;
mod statement;
pub mod structured_runs;

pub use frame::{Body, Frame, LoopProgress};
pub use held::{Held, Plan};
pub use machine::{Ending, Machine, StepOutcome};
pub use running::{Ran, name_room, run, start};
