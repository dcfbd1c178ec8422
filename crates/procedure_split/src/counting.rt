//! How many items of each kind are added.

ghost use Rattle.std.specs.Prelude.{◌≡◌, ◌+◌, map, IfOk, OnOk};
ghost use Rattle.cob_base.specs.Answers.{Makes};
ghost use Rattle.branch_tree.specs.Graph.{seen_added};
ghost use Rattle.added_items.specs.item_table.Naming.{item_kind};
ghost use Rattle.procedure_split.specs.Counting.{counts_of, none_added, with_one};

use crate::report::AddedCounts;
use added_items::item_table::AddedItem;
use branch_tree::Added;
use cob_base::NoMemory;

fn none_added() -> AddedCounts
    ensures { result ≡ none_added }
{
    AddedCounts {
        never: 0,
        flags: 0,
        counts: 0,
        states: 0,
        exits: 0,
    }
}

/// One more; out of memory where that needs more than 32 bits.
fn one_more(number: u32) -> Result<u32, NoMemory>
    ensures { IfOk result (λ more. more ≡ number + 1) }
{
    if number == u32::MAX {
        return Err(NoMemory);
    }
    Ok(number + 1)
}

/// Counts one more of the kind.
fn count_one(counts: &mut AddedCounts, kind: Added) -> Result<(), NoMemory>
    ensures { OnOk result (counts.new ≡ with_one counts.old (seen_added kind)) }
{
    match kind {
        Added::Never => counts.never = one_more(counts.never)?,
        Added::Flag => counts.flags = one_more(counts.flags)?,
        Added::Count => counts.counts = one_more(counts.counts)?,
        Added::State => counts.states = one_more(counts.states)?,
        Added::Exit => counts.exits = one_more(counts.exits)?,
    }
    Ok(())
}

/// How many of these items there are of each kind.
pub fn counts_of(added: &[AddedItem]) -> Result<AddedCounts, NoMemory>
    ensures { Makes (counts_of (map item_kind added.now)) result }
{
    let mut counts = none_added();
    for item in added {
        count_one(&mut counts, item.kind)?;
    }
    Ok(counts)
}
