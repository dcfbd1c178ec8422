//! A sum as far as it is read.

use crate::expr_forms::side::Side;
use cob_tree::{Expr, Op};
use parser_combinators::Position;

/// What comes before the last term of a sum.
#[derive(Debug, Drop)]
pub struct PendingTerm {
    pub left: Expr,
    pub op: Op,
    pub position: Position,
    /// Whether it is a number without decimals.
    pub whole: bool,
}

/// A sum as far as it is read; factors go to the last term.
#[derive(Debug, Drop)]
pub struct Chain {
    pub before: Option<PendingTerm>,
    pub last: Side,
}
