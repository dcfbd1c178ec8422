//! What a source program means, what a structured one means, and when the two behave the same.
//!
//! `plain_step` makes one step of a plain program, for tests of the source meaning. The other
//! functions have no code: each states a law of the definitions.

ghost use Rattle.meanings.specs.plain.Laws.{TheSourceGrows, MoreStepsShowMore, ReachingRunsOn, TheFirstStateRuns, MoreUnitsShowMore, CoveringMatches, TiedBehavesTheSame};
ghost use Rattle.meanings.specs.plain.Example.{RunsAs};

mod next;
mod rest;
mod state;
mod step;

pub use crate::plain::state::{Item, Over, PlainState, Waiting};
pub use crate::plain::step::{begun, plain_step};

/// A small program with a jump, run step by step, and the nested one that does the same.
pub fn a_small_program_runs_as_said()
    ensures { RunsAs }
{}

/// A step of the source never shows less, and a state that is over stays; so with more steps the
/// source shows at least as much.
pub fn more_steps_show_more()
    ensures grows { TheSourceGrows }
    ensures steady { MoreStepsShowMore }
{}

/// Whatever a reached state runs to, the state before it runs to as well, and the program comes to
/// what its first state runs to.
pub fn what_is_reached_runs_on()
    ensures behind { ReachingRunsOn }
    ensures begun { TheFirstStateRuns }
{}

/// With more units nested statements show at least as much, and what is over stays.
pub fn more_units_show_more()
    ensures { MoreUnitsShowMore }
{}

/// A run that covers another matches it, so a program and a structured one whose meanings are tied
/// behave the same.
pub fn tied_behaves_the_same()
    ensures matches { CoveringMatches }
    ensures same { TiedBehavesTheSame }
{}
