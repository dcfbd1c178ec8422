//! Why a text isn't a mask.

/// Why a text isn't a mask, with the byte that decides it, from 1.
#[derive(Clone, Copy, Debug, PartialEq, Eq)]
pub enum MaskFault {
    /// A byte that isn't a symbol of a mask.
    Symbol(u32),
    /// A symbol that can't come here in a mask, or an end that comes too early.
    Order(u32),
    /// More than 18 digits.
    TooManyDigits(u32),
}
