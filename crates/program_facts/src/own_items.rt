//! Whether a statement is one of the program's own, which hold no word on an added item.
//!
//! `OwnStmt` of `control_flow_theory/specs/language/Own.antt` says this about the statement's
//! control.

mod owning;
mod statement;

pub use crate::own_items::owning::{
    is_own_arith, is_own_control, is_own_move, is_own_subject, is_own_test,
};
pub use crate::own_items::statement::{is_own_stmt, is_own_stmts};
