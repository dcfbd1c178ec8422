//! The parts of a program as the tokens with which they are printed.
//!
//! Each module has one kind of part, under the name that its definitions have in `specs`: places,
//! operands and expressions in `place`, conditions in `condition`, and so on up to `head`, the
//! first line of a statement. The definitions are to be compared with ISO 1989:1985, the formats of
//! the PROCEDURE DIVISION.
#![tactic(auto)]

mod arithmetic;
mod choice;
mod condition;
mod control;
mod file;
mod head;
mod place;
mod token;

pub use token::Tokens;
