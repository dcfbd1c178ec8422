//! The bodies of a program's ranges: each range of its plan is lowered to exactly the nodes that
//! are reached, with its counters numbered, and shaped by the rules to one body.
//!
//! `lower_ranges` gives the graphs, within the limit on their labels and statements (`Graphs.antt`
//! and `Limit.antt` in `specs/shaped_ranges`), and `shape_all` what they are shaped to
//! (`Shaped.antt`). The law `ranges_are_planned` says that a program that isn't faulty is planned
//! in this way as the headline requires.

mod graphing;
mod laws;
mod shaping;

pub use crate::shaped_ranges::graphing::lower_ranges;
pub use crate::shaped_ranges::laws::ranges_are_planned;
pub use crate::shaped_ranges::shaping::{Closed, shape_all};
