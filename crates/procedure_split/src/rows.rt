//! The shaped ranges, in the form in which their cells get items.

ghost use Rattle.std.specs.Prelude.{◌≡◌, length, IfOk};
ghost use Rattle.added_items.specs.item_table.Seen.{seen_cells, seen_ranges};
ghost use Rattle.procedure_split.specs.Rows.{row_of, rows_of};

use crate::shaped_ranges::Closed;
use added_items::item_table::ShapedRange;
use cob_base::NoMemory;
use cob_tree::Range;
use std::alloc::Global;

fn row_of<'a>(range: Range, closed: &'a Closed) -> ShapedRange<'a>
    ensures { seen_cells result ≡ row_of range closed.now }
{
    ShapedRange {
        range,
        body: &closed.tree.body,
        added: closed.added.as_slice(),
    }
}

/// Each range, with the body and the added items that it was shaped to.
pub fn rows_of<'a>(
    alloc: Global,
    order: &[Range],
    closed: &'a [Closed],
) -> Result<Vec<ShapedRange<'a>>, NoMemory>
    requires { length closed.now ≡ length order.now }
    ensures { IfOk result (λ rows. seen_ranges rows.items ≡ rows_of order.now closed.now) }
{
    let mut rows = Vec::new(alloc);
    for at in 0..order.len() {
        rows.push(row_of(order[at], &closed[at]))?;
    }
    Ok(rows)
}
