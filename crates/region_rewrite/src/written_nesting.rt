//! How deep the statements of a tree nest as they are written.
//!
//! A statement that holds statements is one level more than the deepest of them; an empty arm of
//! READ or of arithmetic that the written statement leaves out adds no level
//! (`specs/written_nesting/Nesting.antt`).

mod nesting;
mod own;

pub use crate::written_nesting::nesting::body_nesting;
