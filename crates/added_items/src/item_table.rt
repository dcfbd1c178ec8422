//! Items for the cells of shaped ranges: their entries, in the order in which the text first names
//! them, and what writing needs to know of each cell.
//!
//! `give_items` gives both. `specs/item_table/Tables.antt` is the table of cells that the theory of
//! control requires; its items are those of `specs/item_table/Owners.antt`, named by
//! `specs/item_table/Naming.antt`.

mod assignment;
mod cell_item;
mod choices;
mod items;
mod laws;
mod naming;
mod numbering;
mod row;

pub use crate::item_table::items::{AssignedItems, give_items};
pub use crate::item_table::laws::{cells_have_entries, closed_cells_are_served};
pub use crate::item_table::naming::AddedItem;
pub use crate::item_table::row::ShapedRange;
