//! Bytes of the program text, with their lines.

/// A byte of the program text, and its line in the source, from 1.
#[derive(Clone, Copy, Debug, PartialEq, Eq)]
pub struct Placed {
    pub byte: u8,
    pub line: u32,
}
