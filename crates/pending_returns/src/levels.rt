//! What a range's level comes to, and which ranges return.
//!
//! `reached` searches a level, to compare with `ComesIn` of `program_points::point_table`;
//! `returning_ranges` finds the ranges that return, and `calls_of` and `ends_of` give what a level
//! performs and whose ends it passes. Marks are made once for all ranges and cleared through the
//! list of marked places, so the cost of a range's search is the number of places that its level
//! comes to. `laws::table_is_exact` and `facts_are_exact` say that this is what the flow paths of
//! the program do.

mod facts;
pub mod laws;
mod level;
mod reach;
mod settling;
mod working;

pub use crate::levels::facts::{calls_of, ends_of};
pub use crate::levels::level::Level;
pub use crate::levels::reach::{Reach, ends_at, reached};
pub use crate::levels::settling::{comes_back, has_end, recheck_all, returning_ranges};
pub use crate::levels::working::{Waiter, Worklist, run_worklist, update_range};
