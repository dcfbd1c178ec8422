//! That a source which is a structured program, as each text that was restructured, runs as its
//! nested statements mean, and that a source and its result are never told to differ.
//!
//! `sources` says the first of what `restructure_core::run::run_source` does, and `asks` of how a
//! call of the whole tool ends; they rest on `structured_run_laws`. `comparisons` says the second of
//! a call to compare both; it rests on `trace_compare`, and on `faultless`: a program without a
//! fault of flow meets none as it runs. Nothing here runs.
#![tactic(auto)]

pub mod asks;
pub mod comparisons;
pub mod faultless;
pub mod sources;
