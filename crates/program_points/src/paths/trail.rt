//! Trails.

use cob_base::Items;
use cob_tree::{FlowFault, Range};

/// Which way a path takes.
#[derive(Debug, Clone, Copy, PartialEq, Eq)]
pub enum Move {
    /// The way with this number, from 1, of several.
    Arm(u32),
    /// Over a PERFORM, whose range returns by the lemma with this number, from 0.
    Over(u32),
    /// Into the range of a PERFORM.
    Into,
}

/// A range's level, followed to its return.
#[derive(Debug, Drop)]
pub struct Lemma {
    pub range: Range,
    pub moves: Items<Move>,
}

/// A range's level, followed to where the next range is performed, or to the fault.
#[derive(Debug, Drop)]
pub struct Hop {
    pub range: Range,
    pub moves: Items<Move>,
}

/// Shows that a program is faulty.
#[derive(Debug, Drop)]
pub struct Trail {
    pub fault: FlowFault,
    /// The lemmas; each may step over the ranges of those before it.
    pub lemmas: Items<Lemma>,
    /// The hops, from main to the level where the fault is.
    pub hops: Items<Hop>,
}
