//! Whether control of a program comes to a fault, whatever the data.

ghost use Rattle.std.specs.Prelude.{◌<◌, length, MatchResult};
ghost use Rattle.restructure_core.specs.Flow.{IsFlowRefusal};
ghost use Rattle.restructure_core.specs.Made.{IsFlowOf};

use crate::fault::Refused;
use cob_tree::Program;
use overlap_trail::finding::find;
use pending_returns::{Summary, summarise};
use program_points::paths::Trail;
use std::alloc::Global;

/// What control of a program comes to.
#[derive(Debug, Drop)]
pub enum Flow {
    /// No flow path comes to a fault; the summary is of the ranges that flow paths perform.
    Clear(Summary),
    /// A flow path comes to a fault, as the trail shows.
    Faulty(Trail),
}

/// Whether a flow path of a program comes to a fault. The errors are Limit, where the program names
/// too many ranges, and NoMemory.
#[tactic(auto, using(crate::proofs::Flowing::clear_flow, crate::proofs::Flowing::faulty_flow, crate::proofs::Flowing::flow_past))]
pub fn flow_of(alloc: Global, program: &Program) -> Result<Flow, Refused>
    requires { 0 < length program.now.paragraphs }
    ensures { MatchResult result (IsFlowOf program.now) (IsFlowRefusal program.now) }
{
    let summary = summarise(alloc, program)?;
    match find(alloc, program, &summary)? {
        None => Ok(Flow::Clear(summary)),
        Some(trail) => {
            drop(summary);
            Ok(Flow::Faulty(trail))
        }
    }
}
