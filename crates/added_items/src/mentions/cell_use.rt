//! Where a cell is named.

ghost use Rattle.std.specs.Prelude.{◌≡◌, ◌++◌, OnOk};
ghost use Rattle.branch_tree.specs.Choosers.{seen_picker, seen_test};
ghost use Rattle.branch_tree.specs.Tree.{jump_within, return_within};
ghost use Rattle.added_items.specs.mentions.CellUse.{mention, test_mentions, picker_mentions, mention_unless, cell_uses};

use branch_tree::{Label, Leaves, Picker, Test};
use cob_base::{Items, NoMemory};
use program_facts::own_items::is_own_test;

/// A use of a cell; where a choice is by the cell, with how many arms the choice has.
#[derive(Clone, Copy)]
pub struct CellUse {
    pub cell: u32,
    pub arms: Option<usize>,
}

/// A use of a cell that isn't a choice.
pub fn named(cell: u32) -> CellUse
    ensures { result ≡ mention cell }
{
    CellUse { cell, arms: None }
}

/// Adds the cell of the test.
#[tactic(auto, using(crate::proofs::mentions_lemmas::MentionRows::own_test_added))]
pub fn add_test(made: &mut Items<CellUse>, test: &Test) -> Result<(), NoMemory>
    ensures { OnOk result (made.new ≡ made.old ++ test_mentions (seen_test test.now)) }
{
    match test {
        Test::Holds(cond) => {
            if is_own_test(cond) {
                Ok(())
            } else {
                Err(NoMemory)
            }
        }
        Test::Is { cell, .. } => made.push(named(*cell)),
        Test::Above { cell } => made.push(named(*cell)),
    }
}

/// Adds the cell by which a choice of so many arms chooses, or that its test names.
#[tactic(auto, using(crate::proofs::mentions_lemmas::MentionRows::nothing_added))]
pub fn add_picker(made: &mut Items<CellUse>, by: &Picker, arms: usize) -> Result<(), NoMemory>
    ensures { OnOk result (made.new ≡ made.old ++ picker_mentions (seen_picker by.now) arms) }
{
    match by {
        Picker::If(test) => add_test(made, test),
        Picker::By(_) => Ok(()),
        Picker::ByCell { cell } => made.push(CellUse {
            cell: *cell,
            arms: Some(arms),
        }),
    }
}

/// Adds the cell that a jump within the loop sets.
pub fn add_jump(made: &mut Items<CellUse>, leaves: &Leaves, to: Label) -> Result<(), NoMemory>
    ensures { OnOk result (made.new ≡ made.old ++ cell_uses (jump_within leaves.now to)) }
{
    match leaves {
        Leaves::Silent => Ok(()),
        Leaves::Flag { cell, label } => add_unless(made, *cell, to == *label),
        Leaves::Exit { cell, label, .. } => add_unless(made, *cell, to == *label),
        Leaves::State { cell, .. } => made.push(named(*cell)),
    }
}

fn add_unless(made: &mut Items<CellUse>, cell: u32, none: bool) -> Result<(), NoMemory>
    ensures { OnOk result (made.new ≡ made.old ++ mention_unless none cell) }
{
    if none { Ok(()) } else { made.push(named(cell)) }
}

/// Adds the cell that a return within the loop sets.
pub fn add_return(made: &mut Items<CellUse>, leaves: &Leaves) -> Result<(), NoMemory>
    ensures { OnOk result (made.new ≡ made.old ++ cell_uses (return_within leaves.now)) }
{
    match leaves {
        Leaves::Silent => Ok(()),
        Leaves::Flag { cell, .. } => made.push(named(*cell)),
        Leaves::Exit { cell, .. } => made.push(named(*cell)),
        Leaves::State { cell, .. } => made.push(named(*cell)),
    }
}
