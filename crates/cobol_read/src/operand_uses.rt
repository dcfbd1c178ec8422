//! Uses of operands in statements, and names of files, records and procedures: each function does
//! what the definition of its name in `cobol_grammar` says.
//!
//! `part` judges uses and makes what the tree holds, `kind` says what an entry holds, `record` what
//! each file's first record does, `name` reads names, and `procedure` looks procedures up. The
//! definitions, not this crate, are to be compared with ISO 1989:1985.

mod kind;
mod name;
mod part;
mod procedure;
mod record;

pub use crate::operand_uses::name::{at_user_word, file, header_name, record_name};
pub use crate::operand_uses::part::{
    entry_of, into_fault, known_of, move_fault, operand_of, place_of, subject_fault,
};
pub use crate::operand_uses::procedure::procedure_of;
pub use crate::operand_uses::record::Records;
