//! What a data item's bytes are.

use cob_base::{Copied, NoMemory};
use edit_fields::Mask;
use std::alloc::Global;

/// A picture (ISO 1989:1985, PICTURE clause).
#[derive(Clone, Copy, Debug, PartialEq, Eq)]
pub enum Picture {
    /// Digits: so many before the decimal point, so many after it.
    Number { signed: bool, whole: u8, part: u8 },
    /// So many letters.
    Letters(u32),
    /// So many characters of any kind.
    Any(u32),
    /// A number as it is shown through a mask.
    Edited(Mask),
}

/// Where the sign of a number is (SIGN clause).
#[derive(Clone, Copy, Debug, PartialEq, Eq)]
pub enum Sign {
    /// Within the last digit.
    Within,
    /// A character of its own before the digits.
    SeparateLeading,
    /// A character of its own after the digits.
    SeparateTrailing,
}

/// How a number's digits are stored (USAGE clause).
#[derive(Clone, Copy, Debug, PartialEq, Eq)]
pub enum Usage {
    /// A character for each digit.
    Display,
    /// In two's complement.
    Binary,
    /// Two digits to a byte.
    Packed,
}

impl Copied for Picture {
    fn copy(&self, _alloc: Global) -> Result<Picture, NoMemory> {
        Ok(*self)
    }
}
