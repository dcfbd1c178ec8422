//! Which cells have items of their own.

ghost use Rattle.std.specs.Prelude.{◌≡◌, ◌<◌, ◌≤◌, [], length, map, IfOk, OnOk};
ghost use Rattle.branch_tree.specs.Graph.{seen_added};
ghost use Rattle.added_items.specs.item_table.Assignment.{AreHeld, AreWithin};
ghost use Rattle.added_items.specs.item_table.Owners.{is_never, kind_in, first_constant_cell, owner_of, with_number, each_once};

use branch_tree::Added;
use cob_base::{Items, NoMemory};
use std::alloc::Global;

/// The places of the cells that have items of their own, in the order of the items; and for each
/// place of the row the number of its item.
#[derive(Drop)]
pub struct ItemAssignment {
    pub held: Items<u32>,
    pub numbers: Vec<Option<u32>>,
}

/// Whether an added item of this kind never changes.
pub fn is_never(kind: Added) -> bool
    ensures { result ≡ is_never (seen_added kind) }
{
    match kind {
        Added::Never => true,
        Added::Flag => false,
        Added::Count => false,
        Added::State => false,
        Added::Exit => false,
    }
}

/// What the cell at this place is for; past the last one Never.
#[tactic(auto, using(crate::proofs::item_table_lemmas::RowLemmas::kind_read, crate::proofs::item_table_lemmas::RowLemmas::kind_past))]
pub fn kind_in(kinds: &[Added], place: u32) -> Added
    ensures { seen_added result ≡ kind_in (map seen_added kinds.now) place }
{
    if (place as usize) < kinds.len() {
        kinds[place as usize]
    } else {
        Added::Never
    }
}

/// The first place of a cell that never changes; how many there are, where there is none.
pub fn first_constant_cell(kinds: &[Added]) -> usize
    ensures value { result ≡ first_constant_cell (map seen_added kinds.now) }
    ensures within { result ≤ length kinds.now }
{
    let mut left = kinds.len();
    let mut first = 0usize;
    while left > 0 {
        left -= 1;
        first = if is_never(kinds[left]) { 0 } else { first + 1 };
    }
    first
}

/// The place of the cell whose item the cell at this place uses.
pub fn owner_of(kinds: &[Added], never: u32, place: u32) -> u32
    requires { never ≡ first_constant_cell (map seen_added kinds.now) }
    ensures { result ≡ owner_of (map seen_added kinds.now) place }
{
    if is_never(kind_in(kinds, place)) {
        never
    } else {
        place
    }
}

/// Gives the cell at the place an item, where it has none.
fn hold(holding: &mut ItemAssignment, place: u32) -> Result<(), NoMemory>
    requires within { place < length holding.old.numbers.items }
    requires held { AreHeld holding.old.held holding.old.numbers.items }
    ensures size { length holding.new.numbers.items ≡ length holding.old.numbers.items }
    ensures held { OnOk result (AreHeld holding.new.held holding.new.numbers.items) }
    ensures once { OnOk result (holding.new.held ≡ with_number holding.old.held place) }
{
    match holding.numbers[place as usize] {
        Some(_) => Ok(()),
        None => {
            let number = holding.held.len();
            if number >= u32::MAX as usize {
                return Err(NoMemory);
            }
            holding.held.push(place)?;
            holding.numbers[place as usize] = Some(number as u32);
            Ok(())
        }
    }
}

/// Gives items to the cells at these places, in this order; a cell uses its owner's item.
pub fn assign_items(
    alloc: Global,
    kinds: &[Added],
    never: u32,
    places: &[u32],
) -> Result<ItemAssignment, NoMemory>
    requires never { never ≡ first_constant_cell (map seen_added kinds.now) }
    requires within { AreWithin (length kinds.now) places.now }
    ensures size { IfOk result (λ made. length made.numbers.items ≡ length kinds.now) }
    ensures held { IfOk result (λ made. AreHeld made.held made.numbers.items) }
    ensures once { IfOk result
        (λ made. made.held ≡ each_once [] (map (owner_of (map seen_added kinds.now)) places.now)) }
{
    let mut holding = ItemAssignment {
        held: Items::new(alloc),
        numbers: Vec::from_elem(alloc, None, kinds.len())?,
    };
    for place in places {
        hold(&mut holding, owner_of(kinds, never, *place))?;
    }
    Ok(holding)
}
