//! Numbers the counter cells of loops by TIMES.
//!
//! In a lowered graph the counter of a loop by TIMES has the number of its loop's place. Here the
//! counters of a graph's loops are numbered from 0, in the text order of the loops whose heads are
//! among its nodes, and each becomes an added item. A lowered graph that is numbered so is the one
//! with which the rules begin (`specs/counters/Placed.antt`).

mod cells;
mod counting;
mod numbering;
mod parts;
mod trees;

pub use crate::counters::numbering::number_counters;
