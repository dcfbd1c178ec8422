//! A program as units: the tokens of each of its lines, with the column at which they begin.
//!
//! `program_units` gives the headers, and a line for each entry and for each statement or phrase,
//! in their order. `unparser` gives the first line of a statement; what the statement holds comes
//! after it, four columns further right. The definitions are to be compared with ISO 1989:1985,
//! Reference Format, areas A and B, and the formats of the divisions.

mod division;
mod entry;
mod picture;
mod statement;
mod unit;

ghost use Rattle.std.specs.Prelude.{◌≤◌, All, IfOk};
ghost use Rattle.cob_base.specs.Answers.{Makes};
ghost use Rattle.cobol_print.specs.units.Division.{program_units};

pub use crate::units::statement::ArmPhrase;
pub use crate::units::unit::{PrintUnit, Units, deeper};
use cob_base::{Items, NoMemory};
use cob_tree::Program;
use std::alloc::Global;

/// The units of a program, in order, each of which begins at column 32 or before.
pub fn program_units(alloc: Global, program: &Program) -> Result<Items<PrintUnit>, NoMemory>
    ensures value { Makes (program_units program.now) result }
    ensures narrow { IfOk result (λ units. All (λ unit. unit.column ≤ 32) units) }
{
    let units = all_units(alloc, program)?;
    Ok(units)
}

fn all_units(alloc: Global, program: &Program) -> Result<Items<PrintUnit>, NoMemory>
    ensures { Makes (program_units program.now) result }
{
    let mut units = Units::new(alloc);
    units.header(b"IDENTIFICATION", b"DIVISION")?;
    units.program_id(program.name)?;
    units.environment(program)?;
    units.data(alloc, program)?;
    units.procedure(alloc, program)?;
    Ok(units.into_items())
}
