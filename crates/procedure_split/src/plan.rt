//! The plan of a program that isn't faulty, by the summary of its ranges: which ranges return, and
//! the order of their procedures.
//!
//! `plan_of` gives both: the table of returning ranges, as lowering takes it, and the ranges that
//! are performed from main on, main first, then always the lowest one whose callers have all been
//! taken. `specs/plan/Planned.antt` says this by the summary, `specs/plan/Laws.antt` by flow paths.

mod laws;
mod plan;
mod returning;

pub use crate::plan::laws::{
    cobol_plans_are_by_paths, cobol_programs_have_plans, orders_put_callers_first,
    plans_are_by_paths,
};
pub use crate::plan::plan::{RangePlan, calls_by_number, plan_of, ranges_by};
pub use crate::plan::returning::{add_exit, add_facts, lengthen, returning_of};
