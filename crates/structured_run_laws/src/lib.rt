//! That a run of a structured program is what its nested statements mean.
//!
//! Begin with `agreement`: the source meaning, which knows what is still to do and the returns that
//! are pending, and the nested meaning, which knows statements alone, are tied in each structured
//! program. `runs` says it of what `cobol_run::run` comes to. Nothing here runs.
#![tactic(auto)]

pub mod agreement;
pub mod runs;
