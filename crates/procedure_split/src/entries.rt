//! The entries of the structured program.

ghost use Rattle.std.specs.Prelude.{◌++◌, map};
ghost use Rattle.cob_base.specs.Answers.{Makes};
ghost use Rattle.cobol_theory.specs.cell_serving.Entries.{entries_of};
ghost use Rattle.added_items.specs.item_table.Naming.{seen_item};

use added_items::entries::add_entries;
use added_items::item_table::AddedItem;
use cob_base::{Copied, Items, NoMemory};
use cob_tree::Entry;
use std::alloc::Global;

/// A program's own entries, and after them those of added items.
pub fn entries_with(
    alloc: Global,
    own: &Items<Entry>,
    added: &[AddedItem],
) -> Result<Items<Entry>, NoMemory>
    ensures { Makes (own.now ++ entries_of (map seen_item added.now)) result }
{
    match own.copy(alloc) {
        Ok(copies) => {
            let mut entries = copies;
            match add_entries(alloc, &mut entries, added) {
                Ok(()) => Ok(entries),
                Err(fault) => {
                    drop(entries);
                    Err(fault)
                }
            }
        }
        Err(fault) => Err(fault),
    }
}
