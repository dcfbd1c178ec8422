//! The summary of a program.

ghost use Rattle.std.specs.Prelude.{◌≡◌, ◌<◌, ◌≤◌, ◌^◌, Some, length, slice_get, IfOk, MatchResult};
ghost use Rattle.cob_base.specs.Limit.{max_ranges};
ghost use Rattle.control_flow_theory.specs.language.Control.{control_of};
ghost use Rattle.program_points.specs.paths.Flow.{main_range};
ghost use Rattle.program_points.specs.numbering.Kind.{never_first_of};
ghost use Rattle.program_points.specs.point_table.Table.{IsTidy};
ghost use Rattle.pending_returns.specs.Summary.{IsSummary, IsLimit, IsWithin, IsRangeLimitOrNoMemory};
ghost use Rattle.pending_returns.specs.Tabled.{RangesRise, SummarisesTable};

use crate::calling::transitive_callees;
use crate::facts::{Summary, levels_of};
use crate::keeping::{kept_facts, ranks_of};
use crate::levels::returning_ranges;
use crate::listing::lists;
use crate::passing::marked_owners;
use cob_base::limit::{MAX_RANGES, past};
use cob_base::{Items, LimitKind, NoMemory};
use cob_tree::{Program, SplitFault};
use program_points::perform_ranges::ranges_of;
use program_points::point_table::Table;
use program_points::table_building::table_of;
use std::alloc::Global;

/// The summary of a program that has these places.
pub fn summary_of(alloc: Global, table: &Table) -> Result<Summary, NoMemory>
    requires tidy { IsTidy table.now }
    requires main { slice_get table.now.ranges 0 ≡ Some main_range }
    requires rising { RangesRise table.now.ranges }
    requires few { length table.now.ranges < 2 ^ 32 }
    ensures summary { IfOk result (λ summary. SummarisesTable table.now summary) }
    ensures few { IfOk result (λ summary. length summary.ranges ≤ length table.now.ranges) }
{
    let returns = returning_ranges(alloc, table)?;
    let levels = levels_of(alloc, table, returns.as_slice())?;
    let led = transitive_callees(alloc, levels.as_slice())?;
    let kept = lists(alloc, led.as_slice())?;
    let ranks = ranks_of(alloc, kept.as_slice(), levels.len())?;
    let ranges = kept_facts(alloc, levels.as_slice(), kept.as_slice(), ranks.as_slice())?;
    let flags = marked_owners(alloc, table, returns.as_slice(), kept.as_slice())?;
    Ok(Summary {
        ranges,
        reached: Items::from_vec(flags),
    })
}

/// The limit on ranges, which this count passes.
pub fn limit_of(counted: usize) -> SplitFault
    ensures { IsLimit counted result }
{
    SplitFault::Limit(past(LimitKind::Ranges, false, counted as u64))
}

/// The summary of a program of at least one paragraph. The errors are Limit, exactly where its
/// PERFORM statements name more than 5,000 distinct ranges, main included, and out of memory.
pub fn summarise(alloc: Global, program: &Program) -> Result<Summary, SplitFault>
    requires { 0 < length program.now.paragraphs }
    ensures summary { IfOk result (λ summary. IsSummary (never_first_of program.now.files)
        (control_of program.now) summary) }
    ensures few { IfOk result (λ summary. length summary.ranges ≤ max_ranges) }
    ensures limit { MatchResult result (λ summary. IsWithin program.now)
        (λ fault. IsRangeLimitOrNoMemory program.now fault) }
{
    let ranges = ranges_of(alloc, program)?;
    if ranges.len() > MAX_RANGES {
        return Err(limit_of(ranges.len()));
    }
    let table = table_of(alloc, program, ranges)?;
    let summary = summary_of(alloc, &table)?;
    Ok(summary)
}
