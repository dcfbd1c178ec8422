//! The plan of a program.

ghost use Rattle.std.specs.Prelude.{◌≡◌, ◌<◌, map, IfOk};
ghost use Rattle.cob_base.specs.Answers.{Makes};
ghost use Rattle.procedure_split.specs.plan.Planned.{calls_of, range_at, IsPlanOf};

use crate::plan::returning::returning_of;
use cob_base::{Items, NoMemory};
use cob_tree::Range;
use out_names::order;
use pending_returns::{RangeFacts, Summary, number_of};
use std::alloc::Global;

/// Which ranges return, and the order of their procedures.
#[derive(Debug, Drop)]
pub struct RangePlan {
    /// For each entry the exits of the ranges that return.
    pub returning: Items<Items<u32>>,
    /// Main, and the ranges that are performed from it on, directly or not.
    pub order: Items<Range>,
}

/// For each range the numbers of those that it performs.
pub fn calls_by_number(alloc: Global, ranges: &[RangeFacts]) -> Result<Items<Items<u32>>, NoMemory>
    ensures { Makes (calls_of ranges.now) result }
{
    let mut calls = Items::new(alloc);
    for at in 0..ranges.len() {
        calls.push(Items::from_slice(alloc, ranges[at].calls.as_slice())?)?;
    }
    Ok(calls)
}

/// The range with this number; main, where there is none.
fn range_by(ranges: &[RangeFacts], number: u32) -> Range
    ensures { result ≡ range_at ranges.now number }
{
    match ranges.get(number as usize) {
        Some(facts) => facts.range,
        None => Range {
            entry: 0,
            exit: None,
        },
    }
}

/// The ranges with these numbers.
pub fn ranges_by(
    alloc: Global,
    ranges: &[RangeFacts],
    numbers: &[u32],
) -> Result<Items<Range>, NoMemory>
    ensures { Makes (map (range_at ranges.now) numbers.now) result }
{
    let mut made = Items::new(alloc);
    for at in 0..numbers.len() {
        made.push(range_by(ranges, numbers[at]))?;
    }
    Ok(made)
}

/// The plan of a program that has this summary. Err where memory runs out, or there are more ranges
/// than 32 bits number.
pub fn plan_of(alloc: Global, summary: &Summary) -> Result<RangePlan, NoMemory>
    ensures { IfOk result (λ plan. IsPlanOf summary.now.ranges plan.returning plan.order) }
{
    let ranges = summary.ranges.as_slice();
    let _count = number_of(ranges.len())?;
    let returning = returning_of(alloc, ranges)?;
    let calls = calls_by_number(alloc, ranges)?;
    let numbers = order(alloc, calls.as_slice())?;
    let order = ranges_by(alloc, ranges, numbers.as_slice())?;
    Ok(RangePlan { returning, order })
}
