//! Conditions.

ghost use Rattle.cob_base.specs.Answers.{Makes};

use crate::place::{Expr, Place};
use cob_base::{Boxed, Copied, NoMemory};
use std::alloc::Global;

/// A condition (ISO 1989:1985, conditional expressions).
#[derive(Debug)]
pub enum Cond {
    Relation(Expr, Rel, Expr),
    /// The last part says NOT.
    Class(Place, ClassKind, bool),
    /// The last part says NOT.
    SignIs(Expr, SignKind, bool),
    /// A condition name, an entry of level 88.
    Named(Place),
    Not(Boxed<Cond>),
    And(Boxed<Cond>, Boxed<Cond>),
    Or(Boxed<Cond>, Boxed<Cond>),
}

/// How two values are compared.
#[derive(Clone, Copy, Debug, PartialEq, Eq)]
pub enum Rel {
    Equal,
    NotEqual,
    Less,
    Greater,
    LessEqual,
    GreaterEqual,
}

/// What a class test asks.
#[derive(Clone, Copy, Debug, PartialEq, Eq)]
pub enum ClassKind {
    Numeric,
    Alphabetic,
}

/// What a sign test asks.
#[derive(Clone, Copy, Debug, PartialEq, Eq)]
pub enum SignKind {
    Positive,
    Negative,
    Zero,
}

impl Drop for Cond {
    #[cycle(drop_cond)]
    fn drop(self) {
        match self {
            Cond::Relation(_, _, _) => {}
            Cond::Class(_, _, _) => {}
            Cond::SignIs(_, _, _) => {}
            Cond::Named(_) => {}
            Cond::Not(_) => {}
            Cond::And(_, _) => {}
            Cond::Or(_, _) => {}
        }
    }
}

#[cycle(copy_cond)]
fn copy_cond(alloc: Global, cond: &Cond) -> Result<Cond, NoMemory>
    ensures { Makes cond.now result }
{
    match cond {
        Cond::Relation(left, rel, right) => {
            let left = left.copy(alloc)?;
            Ok(Cond::Relation(left, *rel, right.copy(alloc)?))
        }
        Cond::Class(place, kind, not) => Ok(Cond::Class(place.copy(alloc)?, *kind, *not)),
        Cond::SignIs(expr, kind, not) => Ok(Cond::SignIs(expr.copy(alloc)?, *kind, *not)),
        Cond::Named(place) => Ok(Cond::Named(place.copy(alloc)?)),
        Cond::Not(inner) => Ok(Cond::Not(copy_part(alloc, inner)?)),
        Cond::And(left, right) => {
            let left = copy_part(alloc, left)?;
            Ok(Cond::And(left, copy_part(alloc, right)?))
        }
        Cond::Or(left, right) => {
            let left = copy_part(alloc, left)?;
            Ok(Cond::Or(left, copy_part(alloc, right)?))
        }
    }
}

#[cycle(copy_cond)]
fn copy_part(alloc: Global, part: &Boxed<Cond>) -> Result<Boxed<Cond>, NoMemory>
    ensures { Makes part.now result }
{
    let copy = copy_cond(alloc, part.get())?;
    Boxed::new(alloc, copy)
}

impl Copied for Cond {
    fn copy(&self, alloc: Global) -> Result<Cond, NoMemory> {
        copy_cond(alloc, self)
    }
}
