//! Statements taken apart.
//!
//! A statement has a drop of its own, so that a crate above checks only a call of it: then patterns
//! take a statement apart in this crate alone, and those above take apart what is given here.

use crate::calc::{Calc, Target};
use crate::choice::Subject;
use crate::cond::Cond;
use crate::control::Control;
use crate::file::Opening;
use crate::place::{Operand, Place};
use crate::stmt::{Arms, Stmt, When};
use cob_base::Items;

/// A statement taken apart: each variant has what the statement's variant of that name has.
#[derive(Drop)]
pub enum StmtParts {
    Display {
        items: Items<Operand>,
        advance: bool,
    },
    Move {
        from: Operand,
        to: Items<Place>,
    },
    Arith {
        calc: Calc,
        into: Items<Target>,
        arms: Arms,
    },
    SetTrue(Place),
    Opens(Items<Opening>),
    Closes(Items<u32>),
    Read {
        file: u32,
        into: Option<Place>,
        arms: Arms,
    },
    Write {
        entry: u32,
        from: Option<Operand>,
    },
    Rewrite {
        entry: u32,
        from: Option<Operand>,
    },
    If {
        cond: Cond,
        yes: Items<Stmt>,
        no: Items<Stmt>,
    },
    Evaluate {
        subject: Subject,
        whens: Items<When>,
        other: Option<Items<Stmt>>,
    },
    Loop {
        control: Control,
        body: Items<Stmt>,
    },
    Perform {
        entry: u32,
        exit: u32,
        control: Control,
    },
    Go(u32),
    GoDepending {
        to: Items<u32>,
        on: Place,
    },
    NextSentence,
    StopRun,
    Exit,
    ExitParagraph,
    ExitSection,
    ExitPerform {
        cycle: bool,
    },
    Continue,
}

/// The arms of READ or of arithmetic, taken apart.
#[derive(Drop)]
pub struct ArmParts {
    pub first: Option<Items<Stmt>>,
    pub second: Option<Items<Stmt>>,
}
