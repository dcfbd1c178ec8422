//! What is read of a statement is dropped by these calls, also in the crates above: an implicit
//! drop is checked with the drops of all types in the tree, in each function that has one; that of
//! a call only once.

use cob_base::Items;
use cob_tree::{Cond, Control, Expr, Operand, Place, Stmt, Test};

/// Drops an operand.
pub fn drop_operand(operand: Operand) {
    drop(operand);
}

/// Drops operands.
pub fn drop_operands(operands: Items<Operand>) {
    drop(operands);
}

/// Drops an item.
pub fn drop_item(place: Place) {
    drop(place);
}

/// Drops items.
pub fn drop_items(places: Items<Place>) {
    drop(places);
}

/// Drops an expression.
pub fn drop_expr(expr: Expr) {
    drop(expr);
}

/// Drops a condition.
pub fn drop_condition(cond: Cond) {
    drop(cond);
}

/// Drops the tests of a WHEN.
pub fn drop_tests(tests: Items<Test>) {
    drop(tests);
}

/// Drops the control of a PERFORM.
pub fn drop_loop_control(control: Control) {
    drop(control);
}

/// Drops statements.
pub fn drop_stmts(stmts: Items<Stmt>) {
    drop(stmts);
}
