//! Splits a program into its procedures.

ghost use Rattle.std.specs.Prelude.{MatchResult};
ghost use Rattle.procedure_split.specs.shaped_ranges.Laws.{HasFlow};
ghost use Rattle.procedure_split.specs.Splitting.{IsSplitFault, IsSplitWith};

use crate::plan::plan_of;
use crate::shaped_ranges::{lower_ranges, shape_all};
use crate::writing::{Split, write_program};
use cob_tree::{Program, SplitFault};
use pending_returns::Summary;
use std::alloc::Global;

/// The structured program that a program without a fault is restructured to, by the summary of its
/// ranges, and how many items are added. The errors are Limit, exactly where the graphs of its
/// ranges have more than 500,000 labels and statements, or else one of them is shaped to a body
/// that nests deeper than 500 levels, and out of memory.
pub fn split(alloc: Global, program: &Program, summary: &Summary) -> Result<Split, SplitFault>
    requires { HasFlow program.now summary.now }
    ensures { MatchResult result (IsSplitWith program.now summary.now)
        (IsSplitFault program.now summary.now) }
{
    let plan = plan_of(alloc, summary)?;
    let graphs = lower_ranges(alloc, program, &plan)?;
    let mut closed = shape_all(alloc, graphs)?;
    let order = plan.order.as_slice();
    let made = write_program(alloc, program, order, closed.as_mut_slice())?;
    Ok(made)
}
