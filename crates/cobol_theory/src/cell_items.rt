//! Items that restructuring adds: flags, counters and states, each a number item of level 01.
//!
//! The laws say what MOVE, SUBTRACT, comparisons and EVALUATE do with such an item: a value that is
//! moved to it is the value that it is compared with, and nothing else in the store changes.
//! Nothing here runs: the functions are laws.

ghost use Rattle.cobol_theory.specs.cell_items.Laws.{HeldNumbersAreCompared, HeldNumbersAreLowered, HeldNumbersChoose, MovedNumbersAreHeld, MovedValuesAreHeld};

/// A whole number that is moved to such an item is what its root holds then; no other root changes.
pub fn moved_numbers_are_held()
    ensures { MovedNumbersAreHeld }
{}

/// An operand whose value is a whole number is moved to such an item as that number, and one that
/// can't be read ends the run.
pub fn moved_values_are_held()
    ensures { MovedValuesAreHeld }
{}

/// Such an item is compared with a literal by the number that its root holds.
pub fn held_numbers_are_compared()
    ensures { HeldNumbersAreCompared }
{}

/// SUBTRACT of a whole number from such an item leaves the low digits of the difference in its
/// root; no other root changes.
pub fn held_numbers_are_lowered()
    ensures { HeldNumbersAreLowered }
{}

/// EVALUATE of such an item, with a WHEN for each number from 1 on, takes the arm of the number
/// that its root holds.
pub fn held_numbers_choose()
    ensures { HeldNumbersChoose }
{}
