//! What EVALUATE compares.

use crate::cond::Cond;
use crate::place::Expr;
use cob_base::{Copied, NoMemory};
use std::alloc::Global;

/// The subject of EVALUATE.
#[derive(Debug)]
pub enum Subject {
    True,
    False,
    Value(Expr),
}

/// A test of WHEN.
#[derive(Debug)]
pub enum Test {
    Any,
    Holds(Cond),
    /// One value, or all from one to another; with NOT, the others.
    Value {
        not: bool,
        from: Expr,
        to: Option<Expr>,
    },
}

impl Drop for Subject {
    fn drop(self) {
        match self {
            Subject::True => {}
            Subject::False => {}
            Subject::Value(_) => {}
        }
    }
}

impl Drop for Test {
    fn drop(self) {
        match self {
            Test::Any => {}
            Test::Holds(_) => {}
            Test::Value {
                not: _,
                from: _,
                to: _,
            } => {}
        }
    }
}

impl Copied for Subject {
    fn copy(&self, alloc: Global) -> Result<Subject, NoMemory> {
        match self {
            Subject::True => Ok(Subject::True),
            Subject::False => Ok(Subject::False),
            Subject::Value(expr) => Ok(Subject::Value(expr.copy(alloc)?)),
        }
    }
}

impl Copied for Test {
    fn copy(&self, alloc: Global) -> Result<Test, NoMemory> {
        match self {
            Test::Any => Ok(Test::Any),
            Test::Holds(cond) => Ok(Test::Holds(cond.copy(alloc)?)),
            Test::Value { not, from, to } => Ok(Test::Value {
                not: *not,
                from: from.copy(alloc)?,
                to: to.copy(alloc)?,
            }),
        }
    }
}
