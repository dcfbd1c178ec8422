//! What a restructured program's report says, and its lines.
//!
//! `report_of` gives the report of a program, by the summary of its ranges and by how many items
//! are added; `specs/report/Report.antt` has a clause for each line of the report. `report_text`
//! gives the lines; `specs/report/Lines.antt` says what each is. A program has only one report
//! (`programs_have_one_report`), and an example is spelled out (`a_report_reads_so`).

mod laws;
mod lines;
mod report;

pub use crate::report::laws::{a_report_reads_so, programs_have_one_report};
pub use crate::report::lines::report_text;
pub use crate::report::report::{AddedCounts, Report, report_of};
