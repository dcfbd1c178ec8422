//! What the report of a program says.

ghost use Rattle.std.specs.Prelude.{map, IfOk};
ghost use Rattle.cob_base.specs.Answers.{Makes};
ghost use Rattle.out_names.specs.Naming.{paragraph_label};
ghost use Rattle.procedure_split.specs.report.Report.{IsSummaryOf, IsReportOf};

use cob_base::{Items, NoMemory, Word};
use cob_tree::{Paragraph, Program};
use dead_paragraphs::dead;
use out_names::paragraph_label;
use pending_returns::{Summary, number_of};
use std::alloc::Global;

/// How many items of each kind are added.
#[derive(Clone, Copy, Debug)]
pub struct AddedCounts {
    pub never: u32,
    pub flags: u32,
    pub counts: u32,
    pub states: u32,
    pub exits: u32,
}

/// The report of a restructured program.
#[derive(Debug, Drop)]
pub struct Report {
    pub name: Word,
    pub paragraphs: u32,
    /// How many ranges some flow path performs, main included.
    pub ranges: u32,
    /// The labels of the paragraphs to which no flow path comes, in their order; one that neither
    /// has a name nor begins a section has no label.
    pub dropped: Items<Option<Word>>,
    pub never: u32,
    pub flags: u32,
    pub counts: u32,
    pub states: u32,
    pub exits: u32,
}

/// The labels of the paragraphs with these numbers.
fn labels_of(
    alloc: Global,
    paragraphs: &[Paragraph],
    numbers: &[u32],
) -> Result<Items<Option<Word>>, NoMemory>
    ensures { Makes (map (paragraph_label paragraphs.now) numbers.now) result }
{
    let mut labels = Items::new(alloc);
    for number in numbers {
        labels.push(paragraph_label(paragraphs, *number))?;
    }
    Ok(labels)
}

/// The report of a program whose flow has this summary, and to which so many items are added.
pub fn report_of(
    alloc: Global,
    program: &Program,
    summary: &Summary,
    added: AddedCounts,
) -> Result<Report, NoMemory>
    requires { IsSummaryOf program.now summary.now }
    ensures { IfOk result (IsReportOf program.now summary.now added) }
{
    let paragraphs = number_of(program.paragraphs.len())?;
    let ranges = number_of(summary.ranges.len())?;
    let numbers = dead(alloc, summary)?;
    let dropped = labels_of(alloc, program.paragraphs.as_slice(), numbers.as_slice())?;
    Ok(Report {
        name: program.name,
        paragraphs,
        ranges,
        dropped,
        never: added.never,
        flags: added.flags,
        counts: added.counts,
        states: added.states,
        exits: added.exits,
    })
}
