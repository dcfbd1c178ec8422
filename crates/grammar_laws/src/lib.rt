//! What parts of a program are known to be once they are read with no fault of a name: laws alone,
//! in the order of the grammar. Nothing here runs.
//!
//! `well_scoped` says that what they name is there, `whole_counts` that they count by whole
//! numbers, `short_lists` that lists are no longer than their tokens, and `no_periods` that no
//! statement takes a period. `form_results` has what a form gives; with it the others follow the
//! forms of the grammar.
#![tactic(auto)]

pub mod form_results;
pub mod no_periods;
pub mod short_lists;
pub mod well_scoped;
pub mod whole_counts;
