//! Operands and expressions as they are read, made and judged: each function gives what the
//! definition of its name in `expr_forms` says.
//!
//! `token` sees which token is next, `fault` says what is wrong with a use, `side`, `chain` and
//! `either` make what is read, and `drops` drops it. The definitions, not this crate, are to be
//! compared with ISO 1989:1985.

mod behind;
mod chain;
mod drops;
mod either;
mod fault;
mod limit;
mod side;
mod token;

pub use crate::actions::behind::{both_behind, window_suffix};
pub use crate::actions::chain::{chain_of, finish, joined};
pub use crate::actions::drops::{
    drop_chain, drop_either, drop_place, drop_side, drop_subs, drop_window, sum_of,
};
pub use crate::actions::either::{
    bare_sub, either_fault, item_sub, number_either, number_sub, ref_either, sub_added, subs_of,
    with_number,
};
pub use crate::actions::fault::{
    condition_fault, found_fault, is_condition, is_whole, item_of, kind_of, last_fault,
    number_fault, relation_fault, result_fault, value_fault, whole_fault, whole_fault_at,
};
pub use crate::actions::limit::count_terms;
pub use crate::actions::side::{
    digits_side, enclosed, expr_of, literal_kind, literal_side, negated, number_of, place_of,
    ref_side, shape_of, sum_side,
};
pub use crate::actions::token::{at_colon, at_of, at_operand, at_turn, operator};
