//! Tests of whole calls: what the program answers over sources, sinks and devices in memory, where
//! calls of them fail.
//!
//! They are here, over the finished crates, since a crate with tests of its own is proved twice. What
//! a call answers where nothing fails is seen from outside, and stands in `.ci/examples`.
#![tactic(auto)]

#[cfg(test)]
mod calls;
#[cfg(test)]
mod devices;
#[cfg(test)]
mod failures;
#[cfg(test)]
mod outside;
#[cfg(test)]
mod sources;
