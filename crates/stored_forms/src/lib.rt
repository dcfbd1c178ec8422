//! How number items of USAGE BINARY and PACKED-DECIMAL are stored.
//!
//! Both are written and read in place, without allocating. ISO 1989:1985 leaves their bytes to the
//! implementor (the USAGE clause): `specs/Binary.antt` and `specs/Packed.antt` are this project's
//! choice, with a definition for each rule, and the calls give exactly that. `laws` supports these:
//! what is written reads back, reading is the rule on all bytes, and no two values have the same
//! bytes. Values and bytes that are known from outside are tests of `front_end_tests`.
#![tactic(auto)]

mod binary;
mod item;
pub mod laws;
mod packed;

pub use binary::{binary_read, binary_size, binary_write};
pub use item::count_of_digits;
pub use packed::{packed_read, packed_size, packed_write};
