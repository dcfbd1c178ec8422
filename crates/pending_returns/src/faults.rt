//! Whether a flow path of a program comes to a fault, by the program's summary.
//!
//! A fault needs a pending range, and a range to which calls lead from it, whose level passes the
//! pending one's end or performs a range that ends there too. `clash_in` searches for such a pair,
//! and the program is faulty exactly where there is one. `specs/faults/Clash.antt` says what a pair
//! is.

mod clash;
mod fault;
mod leading;

pub use crate::faults::clash::{Clash, clash_below, clash_from, clash_in, clash_of};
pub use crate::faults::fault::{ends_one, fault_at, is_among};
pub use crate::faults::leading::callees_from;
