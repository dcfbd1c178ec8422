//! What programs of the language of control mean.
//!
//! Sources run step by step, with rests and pending returns; nested programs mean what their
//! statements mean, within units; graphs of trees are walked. The three share the step of an item,
//! with one line for each statement. What acts, tests and chooses is left open, so the definitions
//! and laws hold whatever the parts of a program do to a memory. `specs/semantics/Items.antt` and
//! `specs/semantics/Source.antt` are to be compared with the rules on control of ISO 1989:1985.
//! `machines_grow` is the law on which the crates above are built. Nothing here runs: the contracts
//! are the laws.

ghost use Rattle.control_flow_theory.specs.semantics.Examples.{SourcesRunAs, NestedRunAs, BothRunAlike, FamiliesWalkAs, JumpsRunAs};
ghost use Rattle.control_flow_theory.specs.semantics.Laws.{TheSourceGrows, WalksGrow, TheMainWalkGrows};

/// Small programs with jumps, nested ones and families, run step by step and within units.
pub fn small_programs_run_as_said()
    ensures sources { SourcesRunAs }
    ensures nested { NestedRunAs }
    ensures both { BothRunAlike }
    ensures walks { FamiliesWalkAs }
    ensures jumps { JumpsRunAs }
{}

/// A step of a source, and of a walk, never shows less, and a state that is over stays.
pub fn machines_grow<Memory, Left>()
    ensures source { TheSourceGrows Memory Left }
    ensures walks { WalksGrow Memory Left }
    ensures main { TheMainWalkGrows Memory Left }
{}
