//! Laws of reports.

ghost use Rattle.procedure_split.specs.report.Laws.{HelloIsTold, ProgramsHaveOneReport};

/// Two reports of a program to which the same numbers of items are added are the same, whichever
/// summaries of its flow they were made from.
pub fn programs_have_one_report()
    ensures { ProgramsHaveOneReport }
{}

/// An example of a report, with its eleven lines.
pub fn a_report_reads_so()
    ensures { HelloIsTold }
{}
