//! Readers of what statements are made of (`Parts`), and what several kinds of statements read by
//! them: numbers and names of procedures, and which verb is next. The crates above drop what they
//! read, and add to lists of it, by the calls of `drops` and `lists`.
//!
//! Each function reads exactly by the form of its name in `stmt_forms` (ISO 1989:1985, PROCEDURE
//! DIVISION), as `Reads` says: what it takes and makes, and where and why it stops.

mod drops;
mod lists;
mod number;
mod parts;
mod procedures;
mod verb;

pub use crate::part_readers::drops::{
    drop_condition, drop_expr, drop_item, drop_items, drop_loop_control, drop_operand,
    drop_operands, drop_stmts, drop_tests,
};
pub use crate::part_readers::lists::{item_added, operand_added, pushed, stmt_added, test_added};
pub use crate::part_readers::number::number_operand;
pub use crate::part_readers::parts::Parts;
pub use crate::part_readers::procedures::{at_digits, at_procedure, procedure, procedure_named};
pub use crate::part_readers::verb::{
    at_adding, at_arithmetic, at_choice, at_filing, at_moving, at_multiplying, at_simple, at_stmt,
};
