//! What trees choose by, and loops are tested by.

use cob_base::Items;
use cob_tree::{Calc, Cond, Place, Subject, Target, Test as WhenTest};

/// A test: a condition of the program, or of an added item.
#[derive(Drop)]
pub enum Test {
    Holds(Cond),
    /// The added item holds the number.
    Is { cell: u32, value: u32 },
    /// The added item is above zero.
    Above { cell: u32 },
}

/// What chooses an arm in the program, other than a condition.
#[derive(Drop)]
pub enum Chooser {
    /// EVALUATE: one arm for each list of tests, and one for WHEN OTHER.
    Evaluate {
        subject: Subject,
        tests: Items<Items<WhenTest>>,
        has_other: bool,
    },
    /// READ: AT END, and the other arm.
    Read {
        file: u32,
        into: Option<Place>,
        has_end: bool,
    },
    /// Arithmetic: ON SIZE ERROR, and the other arm.
    Arith {
        calc: Calc,
        into: Items<Target>,
    },
    /// GO TO DEPENDING: one arm for each of so many names, and one for no name.
    Depending {
        on: Place,
        names: u32,
    },
}

/// What chooses among the arms of a branch. By an added item arm k, from 0, is for the value k + 1.
#[derive(Drop)]
pub enum Picker {
    If(Test),
    By(Chooser),
    ByCell { cell: u32 },
}
