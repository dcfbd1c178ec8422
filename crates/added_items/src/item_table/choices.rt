//! How many arms the first choice by each cell has.

ghost use Rattle.std.specs.Prelude.{◌≡◌, ◌<◌, length, None, IfOk};
ghost use Rattle.added_items.specs.item_table.Choices.{AreFirst, IsPut};

use crate::mentions::CellUse;
use cob_base::NoMemory;
use std::alloc::Global;

/// Notes the choice of this use, in place of one that was noted before.
fn put_first(arms: &mut Vec<Option<usize>>, mention: &CellUse)
    ensures size { length arms.new.items ≡ length arms.old.items }
    ensures value { IsPut arms.old.items mention.now arms.new.items }
{
    if mention.arms.is_some() && (mention.cell as usize) < arms.len() {
        arms[mention.cell as usize] = mention.arms;
    }
}

/// For each of so many cells how many arms the first choice by it has, where there is one.
pub fn first_choices(
    alloc: Global,
    told: &[CellUse],
    count: usize,
) -> Result<Vec<Option<usize>>, NoMemory>
    ensures size { IfOk result (λ arms. length arms.items ≡ count) }
    ensures value { IfOk result (λ arms. AreFirst told.now arms.items) }
{
    let mut arms = Vec::from_elem(alloc, None, count)?;
    let mut left = told.len();
    while left > 0 {
        left -= 1;
        put_first(&mut arms, &told[left]);
    }
    Ok(arms)
}
