//! The data with which an expression is read.

use std::alloc::Global;
use symbol_tables::data_names::NameTable;

/// The names that an expression may have, and how many levels of parentheses may still open in it.
#[derive(Clone, Copy)]
pub struct ExprContext<'a> {
    pub alloc: Global,
    pub names: &'a NameTable,
    pub levels: u32,
}
