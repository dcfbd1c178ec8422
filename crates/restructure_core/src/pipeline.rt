//! Bytes of a source to bytes of the result.

ghost use Rattle.std.specs.Prelude.{◌⊎◌, ◌≡◌, IsOk, IfOk, IfErr, Err};
ghost use Rattle.cob_base.specs.declared.limit.Limit as limits;
ghost use Rattle.cob_tree.specs.declared.program.Program as tree;
ghost use Rattle.procedure_split.specs.shaped_ranges.Laws.{HasFlow};
ghost use Rattle.restructure_core.specs.declared.fault.Refused as answers;
ghost use Rattle.restructure_core.specs.Made.{IsClear};
ghost use Rattle.restructure_core.specs.Pipeline.{IsUnread, IsPastRanges, IsFaultySource, IsPastLimit};
ghost use Rattle.restructure_core.specs.Pipeline.{IsRestructurable, IsRestructured, IsReported, IsAnswerTo};
ghost use Rattle.restructure_core.specs.Pipeline.{HasCause, IsRefusedBy, IsRefusedByTrail};
ghost use Rattle.restructure_core.specs.Pipeline.{IsDoneWith, IsResultText};

use crate::fault::Refused;
use crate::flow::{Flow, flow_of};
use crate::laws::results_read_back;
use crate::limit::print_result;
use cob_base::Text;
use cob_tree::Program;
use cobol_read::read;
use fixed_point_laws::results::results_are_fixed;
use pending_returns::Summary;
use procedure_split::report::{Report, report_of};
use procedure_split::split;
use std::alloc::Global;

/// A program that was restructured.
#[derive(Debug, Drop)]
pub struct Done {
    /// The bytes of the result.
    pub text: Text,
    pub report: Report,
}

/// Restructures a source: its text, structured, with a report.
///
/// The errors are those of reading, then too many ranges, then a fault of flow, then the limits:
/// labels and statements of the lowered ranges, and of the result its levels, the bytes of its
/// items, the terms of a condition or expression, its tokens, and the bytes of its text; and out of
/// memory.
pub fn restructure(alloc: Global, bytes: &[u8]) -> Result<Done, Refused>
    // what each answer means
    ensures done { IfOk result (IsRestructured bytes.now) }
    ensures refused { IfErr result (HasCause bytes.now) }

    // and when it comes
    ensures unread { (refusal : answers.Refused) →
        IsUnread bytes.now refusal → IsRefusedBy refusal result }
    ensures ranges { (limit : limits.Limit) →
        IsPastRanges bytes.now limit → IsRefusedBy (Refused.Limit limit) result }
    ensures faulty { (program : tree.Program) →
        IsFaultySource bytes.now program → IsRefusedByTrail program result }
    ensures past { (limit : limits.Limit) →
        IsPastLimit bytes.now limit → IsRefusedBy (Refused.Limit limit) result }
    ensures accepted { IsRestructurable bytes.now → IsOk result ⊎ (result ≡ Err Refused.NoMemory) }

    // of a result's text the same text is made again
    ensures again { IsResultText bytes.now → IsDoneWith bytes.now result }
{
    results_are_fixed();
    restructured(alloc, bytes)
}

/// The report of a source that can be restructured. The errors are those of `restructure`.
#[tactic(auto, using(crate::proofs::Answering::reported))]
pub fn check(alloc: Global, bytes: &[u8]) -> Result<Report, Refused>
    ensures done { IfOk result (IsReported bytes.now) }
    ensures refused { IfErr result (HasCause bytes.now) }
{
    match restructure(alloc, bytes) {
        Ok(done) => {
            let Done { text, report } = done;
            drop(text);
            Ok(report)
        }
        Err(refused) => Err(refused),
    }
}

// Restructures a source; the contract has what each answer means.
#[tactic(auto, using(crate::proofs::ReadSome::read_some, crate::proofs::Answering::refusals_answer))]
fn restructured(alloc: Global, bytes: &[u8]) -> Result<Done, Refused>
    ensures done { IfOk result (IsRestructured bytes.now) }
    ensures refused { IfErr result (HasCause bytes.now) }
{
    results_read_back();
    let program = read(alloc, bytes)?;
    match flow_of(alloc, &program)? {
        Flow::Faulty(trail) => Err(Refused::Flow(program, trail)),
        Flow::Clear(summary) => restructure_program(alloc, program, summary),
    }
}

/// The text of the procedures that a program without a fault of flow is split into, and the report.
/// The program is dropped before the text is made, so that the two aren't in memory together.
#[tactic(auto, using(crate::proofs::Answering::splits_answer))]
fn restructure_program(alloc: Global, program: Program, summary: Summary) -> Result<Done, Refused>
    requires flow { HasFlow program summary }
    requires clear { IsClear program summary }
    ensures { IsAnswerTo program result }
{
    match split(alloc, &program, &summary) {
        Ok(made) => {
            let report = report_of(alloc, &program, &summary, made.added);
            drop(summary);
            drop(program);
            let text = print_result(alloc, &made.program);
            drop(made);
            match text {
                Ok(text) => match report {
                    Ok(report) => Ok(Done { text, report }),
                    Err(_) => {
                        drop(text);
                        Err(Refused::NoMemory)
                    }
                },
                Err(why) => Err(why),
            }
        }
        Err(fault) => {
            drop(summary);
            drop(program);
            Err(Refused::from(fault))
        }
    }
}
