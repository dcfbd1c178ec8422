//! Programs to bytes in the reference format.
//!
//! `print` gives the lines of a program's units. A unit is a column and the tokens that are written
//! from it. `print_units` lays units out in lines of 72 columns and cuts literals that are too long
//! for one, as `lines_of` says. The law `printed_reads_back` supports this: what is printed unfolds
//! without a fault, to a text with exactly these tokens; `programs_unfold` says the same of
//! programs. It is to be compared with ISO 1989:1985, Reference Format, continuation of lines. That
//! the lines are such as a person would write is tested.
#![tactic(auto)]

mod laws;
mod layout;
mod spacing;
mod spelling;
pub mod units;

ghost use Rattle.std.specs.Prelude.{◌≤◌, All};
ghost use Rattle.cob_base.specs.Answers.{Makes};
ghost use Rattle.cobol_print.specs.Line.{lines_of, bytes_of_lines};
ghost use Rattle.cobol_print.specs.Program.{printed};

pub use crate::units::PrintUnit;
use crate::units::program_units;
use cob_base::{NoMemory, Text};
use cob_tree::Program;
pub use laws::{heads_begin_no_entry, printed_reads_back, prints_all, programs_unfold};
use layout::Layout;
use std::alloc::Global;

/// The bytes of a program in the reference format, each line ended by LF.
pub fn print(alloc: Global, program: &Program) -> Result<Text, NoMemory>
    ensures { Makes (printed program.now) result }
{
    let units = program_units(alloc, program)?;
    print_units(alloc, units.as_slice())
}

/// The bytes of the lines of these units, in order.
pub fn print_units(alloc: Global, units: &[PrintUnit]) -> Result<Text, NoMemory>
    requires { All (λ unit. unit.column ≤ 32) units.now }
    ensures { Makes (bytes_of_lines (lines_of units.now)) result }
{
    let mut layout = Layout::new(alloc);
    for unit in units {
        layout.add_unit(alloc, unit)?;
    }
    let Layout {
        out,
        column: _,
        inside: _,
    } = layout;
    Ok(out)
}
