//! Reads ADD, SUBTRACT, MULTIPLY, DIVIDE and COMPUTE up to their arms, over any readers of operands
//! and references (`Parts`).
//!
//! Each function reads exactly by the form of its name in `stmt_forms` (ISO 1989:1985, PROCEDURE
//! DIVISION), as `Reads` says: what it takes and makes, and where and why it stops.

mod arithmetic;
mod work;

pub use crate::arithmetic::arithmetic::ArithmeticWork;
pub use crate::arithmetic::work::{Worked, arithmetic_work};
