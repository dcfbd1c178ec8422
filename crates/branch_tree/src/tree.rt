//! Trees: statements without a jump, and an end.

ghost use Rattle.std.specs.Prelude.{◌≡◌};

use crate::chooser::{Picker, Test};
use crate::label::Label;
use cob_base::Items;
use cob_tree::{Operand, Stmt};
use std::collections::VecDeque;

/// What the live leaves of a tree do within a loop.
#[derive(Drop)]
pub enum Leaves {
    /// They do nothing.
    Silent,
    /// A jump to the label goes on; any other sets the cell to 1, and so does a return.
    Flag {
        cell: u32,
        label: Label,
    },
    /// A jump to the label goes on; any other sets the cell to the number of its target, from 1,
    /// and a return to the number after the last one.
    Exit {
        cell: u32,
        label: Label,
        targets: Items<Label>,
    },
    /// A jump sets the cell to the number of its target, from 1, and a return to 0.
    State {
        cell: u32,
        labels: Items<Label>,
    },
}

/// A piece of a body.
#[cycle(tree)]
#[derive(Drop)]
pub enum Piece {
    /// A statement of the program, which holds no jump.
    Own(Stmt),
    /// MOVE the value TO the cell.
    Set {
        cell: u32,
        value: u32,
    },
    /// MOVE the operand of TIMES TO the cell.
    Take {
        cell: u32,
        amount: Operand,
    },
    /// SUBTRACT 1 FROM the cell.
    Lower {
        cell: u32,
    },
    /// A choice whose arms end in leaves, of which only Stop does anything.
    Choose {
        by: Picker,
        arms: Items<Tree>,
    },
    /// PERFORM UNTIL the test, or UNTIL NOT the test where it is turned, of a tree with such
    /// leaves.
    Loop {
        after: bool,
        turned: bool,
        test: Test,
        leaves: Leaves,
        body: Tree,
    },
}

/// Pieces, and then an end. A body grows at both ends, as trees take the place of jumps.
#[cycle(tree)]
pub struct Tree {
    pub body: VecDeque<Piece>,
    pub end: End,
}

impl Drop for Tree {
    #[cycle(drop_tree)]
    fn drop(self) {
        let Tree { body: _, end: _ } = self;
    }
}

impl Tree {
    /// The body, and the end.
    pub fn into_parts(self) -> (VecDeque<Piece>, End)
        ensures body { result.0 ≡ self.body }
        ensures end { result.1 ≡ self.end }
    {
        let Tree { body, end } = self;
        (body, end)
    }
}

/// The end of a tree.
#[cycle(tree)]
#[derive(Drop)]
pub enum End {
    Pick { by: Picker, arms: Items<Tree> },
    Jump(Label),
    Return,
    Stop,
    Dead,
}
