//! How a COBOL program fails.

use thiserror::Error;

/// How a run ends before its time.
#[derive(Clone, Copy, Debug, PartialEq, Eq, Error)]
pub enum Abend {
    /// Bytes that are read as a number aren't its digits and sign.
    #[error("bytes that aren't digits")]
    BadDigits,
    /// A subscript or a window is outside its bounds, or an expression has no value.
    #[error("out of range")]
    OutOfRange,
    /// A file operation got this status, and the program doesn't handle it.
    #[error("file status {0}")]
    Io(u8),
}

/// A return that can't be made, with the paragraph at whose end it would be made.
#[derive(Clone, Copy, Debug, PartialEq, Eq)]
pub enum FlowFault {
    /// A pending range ends there, and the innermost one doesn't.
    Overlap(u32),
    /// A range is performed that ends there, where one is pending already.
    Reentry(u32),
}
