//! Functions that drop parts of a graph that is rewritten.

use crate::kept::Kept;
use crate::work::Work;
use slab::Slab;
use std::alloc::AllocFailed;

/// Drops a node.
pub fn drop_kept(_kept: Kept) {}

/// Drops a node that found no slot.
pub fn drop_failed(_failed: AllocFailed<Kept>) {}

/// Drops slots.
pub fn drop_slots(_slots: Slab<Kept>) {}

/// Drops a graph that was rewritten.
pub fn drop_work(_work: Work) {}
