//! The items that restructuring adds to a program: flags, exit numbers, states and counters.
//!
//! `mentions` gives the order in which a body names its cells, `counters` numbers the counters of
//! loops by TIMES, `item_table` gives each cell an item with a name that the program doesn't have,
//! and `entries` makes the items' data description entries. `specs/item_table/Owners.antt` is to be
//! compared with what docs/RESTRUCTURING.md says about added items; that these are suitable for the
//! cells of the theory is a clause of `give_items`.
#![tactic(auto)]

pub mod counters;
pub mod entries;
pub mod item_table;
pub mod mentions;
