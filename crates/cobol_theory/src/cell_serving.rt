//! The items that a written program has for cells do what cells do: what a statement, a condition
//! or a choice does with an item is what the word on the cell does that it is written for.
//!
//! Nothing here runs: each function is a law.

ghost use Rattle.cobol_theory.specs.cell_serving.Amounts.{AmountsAreWhole, WholePlacesAreWhole};
ghost use Rattle.cobol_theory.specs.cell_serving.Choosing.{AlikeReadsSuit, WrittenChoosersChooseAlike};
ghost use Rattle.cobol_theory.specs.cell_serving.Entries.{CellEntriesAreDeclared, WholeLiteralsAreWorth};
ghost use Rattle.cobol_theory.specs.cell_serving.Tested.{TestedPartsAreOfKinds};
ghost use Rattle.cobol_theory.specs.cell_serving.Laws.{WrittenPartsServe};

/// Parts that name a program's own items do the same in the written program, and the words on cells
/// do there with items what they do with cells.
pub fn written_parts_serve()
    ensures { WrittenPartsServe }
{}

/// The chooser that is written for one takes the same arm: for GO TO DEPENDING that is EVALUATE,
/// and for READ one with AT END where the first arm is written.
pub fn written_choosers_choose_alike()
    ensures { WrittenChoosersChooseAlike }
{}

/// A READ that takes the same arm as it is written is one of those.
pub fn alike_reads_suit()
    ensures { AlikeReadsSuit }
{}

/// The value of a number of at most 18 digits, spelled as a literal, is that number.
pub fn whole_literals_are_worth()
    ensures { WholeLiteralsAreWorth }
{}

/// Entries `01 .. PIC 9(n) VALUE 0` after a program's own are cells, and a run starts with zero in
/// each.
pub fn cell_entries_are_declared()
    ensures { CellEntriesAreDeclared }
{}

/// The value of an item without decimal places, of at most 18 digits, is a whole number whatever is
/// stored, or the item can't be reached.
pub fn whole_places_are_whole()
    ensures { WholePlacesAreWhole }
{}

/// The value of such an item, of a whole number and of ZERO is a whole number of at most 18 digits,
/// or it can't be read.
pub fn amounts_are_whole()
    ensures { AmountsAreWhole }
{}

/// What passes the tests of a table of cells is of the kinds for which items are suitable.
pub fn tested_parts_are_of_kinds()
    ensures { TestedPartsAreOfKinds }
{}
