//! An operand or expression as it is read, and what is known of it.

ghost use Rattle.cob_base.specs.Answers.{Makes};

use cob_base::{Copied, NoMemory};
use cob_tree::{Expr, Operand, Place};
use parser_combinators::Position;
use std::alloc::Global;

/// The kind of a value, as far as its uses need it.
#[derive(Clone, Copy, Debug, PartialEq, Eq)]
pub enum ValueKind {
    /// A number, and whether it is without decimals.
    Number(bool),
    /// An elementary item of characters, a literal in quotation marks, or what a window shows.
    Text,
    /// An item with an edited picture, without a window.
    Edited,
    /// An item with items below it, without a window.
    Group,
    /// A figurative constant other than ZERO.
    Figure,
    /// The name of a level 88.
    Condition,
    /// A name that fits nothing that is declared, or more than one thing.
    Unknown,
}

/// How an expression is written.
#[derive(Debug, Drop)]
pub enum ParsedExpr {
    /// A reference alone.
    Ref(Place),
    /// A literal alone.
    Literal(Operand),
    /// A reference alone in parentheses, which may be a condition too.
    Enclosed(Place),
    /// Anything else.
    Sum(Expr),
}

/// In which of these ways an expression is written.
#[derive(Clone, Copy, Debug, PartialEq, Eq)]
pub enum ExprForm {
    Ref,
    Literal,
    Enclosed,
    Sum,
}

/// What an expression is made of.
#[derive(Clone, Copy, Debug, PartialEq, Eq)]
pub enum ExprContent {
    Item,
    Literal,
    /// With an operator or a sign.
    Joined,
}

/// An expression, and what is known of it.
#[derive(Debug, Drop)]
pub struct Side {
    pub what: ParsedExpr,
    pub kind: ValueKind,
    pub make: ExprContent,
    /// Where it begins.
    pub position: Position,
    /// The position of its operand, where it is one alone.
    pub leaf: Position,
}

impl Copied for ParsedExpr {
    fn copy(&self, alloc: Global) -> Result<ParsedExpr, NoMemory> {
        match self {
            ParsedExpr::Ref(place) => Ok(ParsedExpr::Ref(place.copy(alloc)?)),
            ParsedExpr::Literal(operand) => Ok(ParsedExpr::Literal(operand.copy(alloc)?)),
            ParsedExpr::Enclosed(place) => Ok(ParsedExpr::Enclosed(place.copy(alloc)?)),
            ParsedExpr::Sum(expr) => Ok(ParsedExpr::Sum(expr.copy(alloc)?)),
        }
    }
}

impl Copied for Side {
    fn copy(&self, alloc: Global) -> Result<Side, NoMemory> {
        Ok(Side {
            what: self.what.copy(alloc)?,
            kind: self.kind,
            make: self.make,
            position: self.position,
            leaf: self.leaf,
        })
    }
}
