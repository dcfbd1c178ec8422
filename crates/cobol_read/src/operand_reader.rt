//! Reads what statements are made of by the closed grammar of `cobol_grammar`: operands,
//! conditions, names of data, files, records and procedures.
//!
//! `PartReader` is the `Parts` over which statements are read. Each of its calls reads exactly by
//! the form of its name among `parts_of`, by `Reads`.

mod reader;

pub use crate::operand_reader::reader::PartReader;
