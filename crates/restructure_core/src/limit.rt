//! The text of the result, within its limits.

ghost use Rattle.std.specs.Prelude.{◌≡◌, length};
ghost use Rattle.cob_base.specs.Answers.{Makes};
ghost use Rattle.cobol_print.specs.Unit.{all_tokens};
ghost use Rattle.restructure_core.specs.Limit as limits;
ghost use Rattle.restructure_core.specs.Pipeline.{IsPrinted, IsText};

use crate::fault::Refused;
use cob_base::limit::passed;
use cob_base::{Limit, LimitKind, NoMemory, Text};
use cob_store::sizes::storage_of;
use cob_tree::Program;
use cobol_print::units::program_units;
use cobol_print::{PrintUnit, print_units};
use program_facts::term_counts::terms_limit;
use std::alloc::Global;

/// The text of a program that is the result, or the first limit that it passes.
#[tactic(auto, using(crate::proofs::Limits::first_limits, crate::proofs::Limits::text_printed))]
pub fn print_result(alloc: Global, program: &Program) -> Result<Text, Refused>
    ensures { IsPrinted program.now result }
{
    match first_limit(alloc, program)? {
        Some(limit) => Err(Refused::Limit(limit)),
        None => print_text(alloc, program),
    }
}

/// The limit on items that it passes, or else the one on terms.
fn first_limit(alloc: Global, program: &Program) -> Result<Option<Limit>, NoMemory>
    ensures { Makes (limits.part_limit program.now) result }
{
    let storage = storage_of(alloc, program.entries.as_slice())?;
    match passed(LimitKind::Storage, true, storage) {
        Some(limit) => Ok(Some(limit)),
        None => Ok(terms_limit(program)),
    }
}

/// The text, or the first of its limits that it passes.
fn print_text(alloc: Global, program: &Program) -> Result<Text, Refused>
    ensures { IsText program.now result }
{
    let units = program_units(alloc, program)?;
    let tokens = token_count(units.as_slice())?;
    let text = print_units(alloc, units.as_slice())?;
    match first_past(tokens, text.len()) {
        None => Ok(text),
        Some(limit) => {
            drop(text);
            Err(Refused::Limit(limit))
        }
    }
}

/// How many tokens the units have. A count past the largest `usize` is out of memory.
fn token_count(units: &[PrintUnit]) -> Result<usize, NoMemory>
    ensures { Makes (length (all_tokens units.now)) result }
{
    let mut count: usize = 0;
    for unit in units {
        match count.checked_add(unit.tokens.len()) {
            None => return Err(NoMemory),
            Some(more) => count = more,
        }
    }
    Ok(count)
}

/// The first of the limits on tokens and bytes that is passed.
fn first_past(tokens: usize, bytes: usize) -> Option<Limit>
    ensures { result ≡ limits.first_past tokens bytes }
{
    match passed(LimitKind::Tokens, true, tokens as u64) {
        Some(limit) => Some(limit),
        None => passed(LimitKind::Bytes, true, bytes as u64),
    }
}
