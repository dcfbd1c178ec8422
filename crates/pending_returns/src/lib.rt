//! What a program's ranges perform, whether they return, and whose ends they pass, whatever the
//! data.
//!
//! `summarise` gives this for the ranges that some flow path performs. `specs/Summary.antt` says
//! what a summary means, by flow paths; `specs/Tabled.antt` the same by a table of the program's
//! places.
#![tactic(auto)]

mod calling;
mod facts;
pub mod faults;
mod keeping;
pub mod levels;
mod listing;
mod passing;
mod summary;

pub use calling::{transitive_callees, visit_calls};
pub use facts::{RangeFacts, Summary, level_of, levels_of};
pub use keeping::{kept_facts, ranks_of, renumbered};
pub use listing::{lists, number_of, rising};
pub use passing::{mark_owners, marked_owners};
pub use summary::{limit_of, summarise};
