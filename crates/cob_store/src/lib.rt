//! Storage: a program's items as ranges of bytes (ISO 1989:1985, DATA DIVISION).
//!
//! `layout` says where each item is: a root for each item that is in no group and redefines none,
//! and one for the records of a file. A `Store` has the bytes of each root; `reach` leads from a
//! place of the program to its spot there, `get` and `put` read and write a number by its picture,
//! SIGN and USAGE, `put_edited` shows one through a mask, `bytes` and `put_bytes` take anything.
//! The definitions are total: what a program without faults never meets, such as a missing entry,
//! has an answer too. `laws` says that each item has the bytes that its form wants, and that
//! numbers which are put are read.
#![tactic(auto)]

mod area;
mod constant_place;
mod knowing;
pub mod laws;
mod laying;
mod number;
mod place;
mod size;
pub mod sizes;
mod spot;
mod stack;
mod starting;
mod store;

pub use area::{Area, Areas, Dim, Form, Storage, area_at, mask_at};
pub use constant_place::{ConstantPlace, Dims, WindowNumbers};
pub use knowing::know;
pub use laying::layout;
pub use number::{digit_count, number_in, put_digits, put_signed, storage_of};
pub use place::{expr_value, kept, literal_value, number_at, operand_value, place_value, reached};
pub use spot::{Reached, Spot};
pub use stack::Stack;
pub use starting::figure_byte;
pub use store::{Store, number_of};
