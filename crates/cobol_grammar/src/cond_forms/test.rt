//! A condition without NOT, AND and OR, as far as it is read.

use crate::expr_forms::Side;
use cob_tree::{Cond, Rel};

/// What an abbreviation stands for: a left side, a sign, and how many terms it repeats.
#[derive(Debug, Drop)]
pub struct Setting {
    pub left: Side,
    pub rel: Rel,
    pub terms: u32,
}

/// A condition without NOT, AND and OR, or an expression that no test follows.
#[derive(Debug, Drop)]
pub enum Primary {
    Test(Cond, Option<Setting>),
    Alone(Side),
}

/// What was read, how many terms there are up to here, and whether a NOT was read after it that
/// isn't its own.
#[derive(Debug, Drop)]
pub struct Read {
    pub prim: Primary,
    pub count: u32,
    pub pending_not: bool,
}
