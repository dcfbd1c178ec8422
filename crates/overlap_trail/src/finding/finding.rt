//! A trail of a faulty program.

ghost use Rattle.std.specs.Prelude.{IfOk, MatchOption};
ghost use Rattle.control_flow_theory.specs.language.Control.{control_of};
ghost use Rattle.program_points.specs.paths.Flow.{IsFaulty};
ghost use Rattle.program_points.specs.numbering.Kind.{never_first_of};
ghost use Rattle.pending_returns.specs.Summary.{IsSummary};
ghost use Rattle.pending_returns.specs.faults.Clash.{HasClash};
ghost use Rattle.overlap_trail.specs.finding.Finding.{IsFound};

use crate::finding::chain::chain_of;
use crate::finding::hops::hops_of;
use crate::finding::pruning::shortened;
use crate::finding::return_lemmas::{ReturnLemmas, known_of};
use cob_base::NoMemory;
use cob_tree::Program;
use pending_returns::Summary;
use pending_returns::faults::{Clash, clash_in};
use program_points::paths::Trail;
use program_points::perform_ranges::ranges_of;
use program_points::table_building::table_of;
use std::alloc::Global;

/// A trail that shows the clash, with a lemma for each range that returns.
pub fn found(
    alloc: Global,
    program: &Program,
    summary: &Summary,
    clash: Clash,
) -> Result<Trail, NoMemory>
    requires summary { IsSummary (never_first_of program.now.files) (control_of program.now)
        summary.now }
    requires clash { HasClash summary.now.ranges clash }
    ensures { IfOk result (λ trail.
        IsFound (never_first_of program.now.files) (control_of program.now) trail) }
{
    let chain = chain_of(alloc, summary.ranges.as_slice(), clash)?;
    let ranges = ranges_of(alloc, program)?;
    let table = table_of(alloc, program, ranges)?;
    let ReturnLemmas { lemmas, numbers } = known_of(alloc, &table)?;
    let hops = hops_of(alloc, &table, numbers.as_slice(), &chain)?;
    Ok(Trail {
        fault: chain.fault,
        lemmas,
        hops,
    })
}

/// A trail exactly where the program is faulty. Err where memory runs out.
pub fn find(alloc: Global, program: &Program, summary: &Summary) -> Result<Option<Trail>, NoMemory>
    requires { IsSummary (never_first_of program.now.files) (control_of program.now) summary.now }
    ensures { IfOk result (λ found. MatchOption found
        (IsFaulty (never_first_of program.now.files) (control_of program.now) → ⊥)
        (λ trail. IsFound (never_first_of program.now.files) (control_of program.now) trail)) }
{
    match clash_in(alloc, program, summary)? {
        Some(clash) => {
            let trail = found(alloc, program, summary, clash)?;
            let short = shortened(alloc, &trail)?;
            Ok(Some(short))
        }
        None => Ok(None),
    }
}
