//! The parts of statements with which a program is read are spelled by what is printed of them.
//! Nothing here runs.

pub mod cond_spelling;
pub mod data_spelling;
pub mod expr_spelling;
mod laws;
pub mod stmt_spelling;

pub use crate::spelling::laws::{
    parts_are_spelled, parts_are_told, printed_procedures_are_spelled, terms_have_room,
    uses_are_free,
};
