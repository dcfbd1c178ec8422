//! A trail for a faulty program.
//!
//! `find` gives one exactly where some flow path comes to a fault: `pending_returns::faults`
//! decides that. `chain` is the ranges whose levels are pending then, each called by the one
//! before; `search` and `goal` follow one level; `return_lemmas` has a lemma for each range that
//! returns, after those over which its level steps; and `hops` follows the levels of the chain. So
//! the trail is accepted by the way it is made; `pruning` leaves out the lemmas that its hops don't
//! need.

mod chain;
mod distinct;
mod finding;
mod goal;
mod hops;
mod pruning;
mod return_lemmas;
mod search;

pub use crate::finding::distinct::is_same;
pub use crate::finding::finding::find;
