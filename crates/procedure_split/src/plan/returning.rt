//! The table of the ranges that return.

ghost use Rattle.std.specs.Prelude.{◌≡◌, ◌<◌, length, IfOk, OnOk};
ghost use Rattle.procedure_split.specs.plan.Planned.{NamesReturning, lengthened, with_exit, with_facts, table_by};

use cob_base::{Items, NoMemory};
use pending_returns::RangeFacts;
use std::alloc::Global;

/// Lengthens the table to this entry, where it is shorter.
#[tactic(auto, using(crate::proofs::plan_lemmas::Tabling::longer, crate::proofs::plan_lemmas::Tabling::long_enough))]
pub fn lengthen(alloc: Global, table: &mut Vec<Items<u32>>, entry: u32) -> Result<(), NoMemory>
    ensures long { OnOk result (entry < length table.new.items) }
    ensures is { OnOk result (table.new.items ≡ lengthened table.old.items entry) }
{
    let end = entry as usize + 1;
    for at in table.len()..end {
        table.push(Items::new(alloc))?;
    }
    Ok(())
}

/// Adds a range that returns.
pub fn add_exit(
    alloc: Global,
    table: &mut Vec<Items<u32>>,
    entry: u32,
    exit: u32,
) -> Result<(), NoMemory>
    ensures { OnOk result (table.new.items ≡ with_exit table.old.items entry exit) }
{
    lengthen(alloc, table, entry)?;
    table[entry as usize].push(exit)?;
    Ok(())
}

/// Adds the range of these facts, where it returns.
pub fn add_facts(
    alloc: Global,
    table: &mut Vec<Items<u32>>,
    facts: &RangeFacts,
) -> Result<(), NoMemory>
    ensures { OnOk result (table.new.items ≡ with_facts table.old.items facts.now) }
{
    if !facts.returns {
        return Ok(());
    }
    match facts.range.exit {
        Some(exit) => add_exit(alloc, table, facts.range.entry, exit),
        None => Ok(()),
    }
}

/// For each entry the exits of the ranges that return, as far as there are any.
#[tactic(auto, using(crate::proofs::plan_lemmas::Tabling::named_by))]
pub fn returning_of(alloc: Global, ranges: &[RangeFacts]) -> Result<Items<Items<u32>>, NoMemory>
    ensures names { IfOk result (λ table. NamesReturning ranges.now table) }
    ensures is { IfOk result (λ table. table ≡ table_by ranges.now) }
{
    let mut table = Vec::new(alloc);
    for at in 0..ranges.len() {
        add_facts(alloc, &mut table, &ranges[at])?;
    }
    Ok(Items::from_vec(table))
}
