//! The facts of the ranges that are kept, with new numbers.

ghost use Rattle.std.specs.Prelude.{◌≡◌, length, IfOk};
ghost use Rattle.pending_returns.specs.Summary.{Rises};
ghost use Rattle.pending_returns.specs.Tabled.{AllBelow, Ranks, Renumbers, KeepsFacts, CallsBelow};

use crate::facts::RangeFacts;
use crate::listing::number_of;
use cob_base::{Items, NoMemory};
use std::alloc::Global;

/// For each of so many ranges its place among those that are kept.
pub fn ranks_of(alloc: Global, kept: &[u32], count: usize) -> Result<Vec<u32>, NoMemory>
    requires rises { Rises kept.now }
    requires below { AllBelow count kept.now }
    ensures ranks { IfOk result (λ ranks. Ranks kept.now ranks.items) }
    ensures size { IfOk result (λ ranks. length ranks.items ≡ count) }
{
    let mut ranks = vec![in alloc; 0; count]?;
    for at in 0..kept.len() {
        let rank = number_of(at)?;
        ranks[kept[at] as usize] = rank;
    }
    Ok(ranks)
}

/// These ranges, by their new numbers.
pub fn renumbered(alloc: Global, ranks: &[u32], calls: &[u32]) -> Result<Items<u32>, NoMemory>
    requires below { AllBelow (length ranks.now) calls.now }
    ensures { IfOk result (λ made. Renumbers ranks.now calls.now made) }
{
    let mut made = Items::new(alloc);
    for at in 0..calls.len() {
        made.push(ranks[calls[at] as usize])?;
    }
    Ok(made)
}

/// The facts of the ranges that are kept.
pub fn kept_facts(
    alloc: Global,
    levels: &[RangeFacts],
    kept: &[u32],
    ranks: &[u32],
) -> Result<Items<RangeFacts>, NoMemory>
    requires below { AllBelow (length levels.now) kept.now }
    requires calls { CallsBelow (length ranks.now) levels.now }
    ensures { IfOk result (λ made. KeepsFacts levels.now kept.now ranks.now made) }
{
    let mut made = Items::new(alloc);
    for at in 0..kept.len() {
        let facts = &levels[kept[at] as usize];
        let calls = renumbered(alloc, ranks, facts.calls.as_slice())?;
        let ends = Items::from_slice(alloc, facts.ends.as_slice())?;
        made.push(RangeFacts {
            range: facts.range,
            returns: facts.returns,
            calls,
            ends,
        })?;
    }
    Ok(made)
}
