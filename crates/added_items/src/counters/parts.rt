//! Cells in what trees choose by, and in what leaves of a loop do.

ghost use Rattle.std.specs.Prelude.{◌≡◌, OnOk};
ghost use Rattle.control_flow_theory.specs.lowering.Renamed.{test_anew, picker_anew};
ghost use Rattle.control_flow_theory.specs.main_theorem.Numbering.{place_among};
ghost use Rattle.branch_tree.specs.Choosers.{seen_test, seen_picker};
ghost use Rattle.added_items.specs.counters.Anew.{leaves_anew};
ghost use Rattle.added_items.specs.counters.Counting.{Rises};

use crate::counters::cells::number_cell;
use branch_tree::{Leaves, Picker, Test};
use cob_base::NoMemory;
use program_facts::own_items::is_own_test;

/// Numbers the cell of a test. Err also where a condition of the program has a word on an added
/// item.
pub fn number_test(test: &mut Test, cells: &[u32]) -> Result<(), NoMemory>
    requires { Rises 0 cells.now }
    ensures { OnOk result (seen_test test.new
        ≡ test_anew (place_among cells.now) (seen_test test.old)) }
{
    match test {
        Test::Holds(cond) => {
            if is_own_test(cond) {
                Ok(())
            } else {
                Err(NoMemory)
            }
        }
        Test::Is { cell, .. } => number_cell(cell, cells),
        Test::Above { cell } => number_cell(cell, cells),
    }
}

/// Numbers the cell of a picker.
pub fn number_picker(by: &mut Picker, cells: &[u32]) -> Result<(), NoMemory>
    requires { Rises 0 cells.now }
    ensures { OnOk result (seen_picker by.new
        ≡ picker_anew (place_among cells.now) (seen_picker by.old)) }
{
    match by {
        Picker::If(test) => number_test(test, cells),
        Picker::By(_) => Ok(()),
        Picker::ByCell { cell } => number_cell(cell, cells),
    }
}

/// Numbers the cell that leaves set.
pub fn number_leaves(leaves: &mut Leaves, cells: &[u32]) -> Result<(), NoMemory>
    requires { Rises 0 cells.now }
    ensures { OnOk result (leaves.new ≡ leaves_anew (place_among cells.now) leaves.old) }
{
    match leaves {
        Leaves::Silent => Ok(()),
        Leaves::Flag { cell, .. } => number_cell(cell, cells),
        Leaves::Exit { cell, .. } => number_cell(cell, cells),
        Leaves::State { cell, .. } => number_cell(cell, cells),
    }
}
