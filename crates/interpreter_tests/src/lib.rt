//! Tests of runs: operations on files, the folder's device, and plain programs; and of restructuring:
//! that results are structured, and trails of faults.
//!
//! They are here, over the finished crates, since a crate with tests of its own is proved twice. A
//! module names the part that it tests.
#![tactic(auto)]

#[cfg(test)]
mod desk;
#[cfg(test)]
mod folder;
#[cfg(test)]
mod plain;
#[cfg(test)]
mod structured;
#[cfg(test)]
mod trails;
