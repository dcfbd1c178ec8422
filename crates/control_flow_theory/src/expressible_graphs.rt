//! Where a source may be written, its lowered graphs may be.
//!
//! The headline requires that each part in the lowered graphs may be written. Here that follows
//! from the source alone, whose parts are all that lowering puts there, besides the words on
//! counters. Nothing here runs: the contract is the law.

ghost use Rattle.control_flow_theory.specs.expressible_graphs.Laws.{ServedSourcesHaveServedGraphs};

/// Where each part of a source may be written, whatever becomes of the arms of its choices, and so
/// may the counters of its lowered graphs, the headline's premise on what is in these graphs holds.
pub fn served_sources_have_served_graphs()
    ensures { ServedSourcesHaveServedGraphs }
{}
