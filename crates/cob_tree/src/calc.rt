//! What arithmetic statements compute, and where the result goes.

use crate::place::{Expr, Operand, Place};
use cob_base::{Copied, Items, NoMemory};
use std::alloc::Global;

/// What an arithmetic statement computes.
#[derive(Debug)]
pub enum Calc {
    /// ADD .. TO the targets.
    Add(Items<Operand>),
    AddGiving(Items<Operand>),
    /// SUBTRACT .. FROM the targets.
    Subtract(Items<Operand>),
    /// SUBTRACT .. FROM the last operand, GIVING the targets.
    SubtractGiving(Items<Operand>, Operand),
    /// MULTIPLY .. BY the targets.
    Multiply(Operand),
    MultiplyGiving(Operand, Operand),
    /// DIVIDE .. INTO the targets.
    Divide(Operand),
    /// DIVIDE the first INTO the second, GIVING the targets.
    DivideGiving(Operand, Operand),
    Compute(Expr),
}

/// Where a result goes.
#[derive(Debug)]
pub struct Target {
    pub place: Place,
    pub rounded: bool,
}

impl Drop for Calc {
    fn drop(self) {
        match self {
            Calc::Add(_) => {}
            Calc::AddGiving(_) => {}
            Calc::Subtract(_) => {}
            Calc::SubtractGiving(_, _) => {}
            Calc::Multiply(_) => {}
            Calc::MultiplyGiving(_, _) => {}
            Calc::Divide(_) => {}
            Calc::DivideGiving(_, _) => {}
            Calc::Compute(_) => {}
        }
    }
}

impl Drop for Target {
    fn drop(self) {
        let Target {
            place: _,
            rounded: _,
        } = self;
    }
}

impl Copied for Calc {
    fn copy(&self, alloc: Global) -> Result<Calc, NoMemory> {
        match self {
            Calc::Add(parts) => Ok(Calc::Add(parts.copy(alloc)?)),
            Calc::AddGiving(parts) => Ok(Calc::AddGiving(parts.copy(alloc)?)),
            Calc::Subtract(parts) => Ok(Calc::Subtract(parts.copy(alloc)?)),
            Calc::SubtractGiving(parts, from) => {
                let parts = parts.copy(alloc)?;
                Ok(Calc::SubtractGiving(parts, from.copy(alloc)?))
            }
            Calc::Multiply(by) => Ok(Calc::Multiply(by.copy(alloc)?)),
            Calc::MultiplyGiving(one, by) => {
                let one = one.copy(alloc)?;
                Ok(Calc::MultiplyGiving(one, by.copy(alloc)?))
            }
            Calc::Divide(by) => Ok(Calc::Divide(by.copy(alloc)?)),
            Calc::DivideGiving(by, into) => {
                let by = by.copy(alloc)?;
                Ok(Calc::DivideGiving(by, into.copy(alloc)?))
            }
            Calc::Compute(expr) => Ok(Calc::Compute(expr.copy(alloc)?)),
        }
    }
}

impl Copied for Target {
    fn copy(&self, alloc: Global) -> Result<Target, NoMemory> {
        Ok(Target {
            place: self.place.copy(alloc)?,
            rounded: self.rounded,
        })
    }
}
