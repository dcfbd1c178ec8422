//! Static facts on programs, which lowering, writing and the laws need.
//!
//! `well_scoped`: what is named is there; `whole_counts`: counts are whole numbers; `term_counts`:
//! how large conditions and expressions are; `completion`: which statements can't complete, and
//! lists that end after them; `own_items`: a statement holds no word on an added item. What has
//! code answers exactly by the definition of its name in `specs`.
#![tactic(auto)]

pub mod completion;
pub mod own_items;
pub mod term_counts;
pub mod well_scoped;
