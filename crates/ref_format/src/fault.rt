//! What isn't in the reference format, and why a source isn't unfolded.

ghost use Rattle.std.specs.Prelude.{◌≡◌};

use cob_base::NoMemory;
use thiserror::Error;

/// What isn't in the reference format. The number is that of the line, from 1.
#[derive(Debug, Drop, PartialEq, Eq, Error)]
pub enum FormatFault {
    /// Column 7 isn't a space, `-`, `*`, `/`, `D` or `d`.
    #[error("a wrong indicator in line {0}")]
    BadIndicator(u32),
    /// A byte below 32 is in columns 8 to 72.
    #[error("a control character in line {0}")]
    BadByte(u32),
    /// A continuation has no kept line before it, something in columns 8 to 11, nothing from column
    /// 12 on, or not the mark of the literal that it continues.
    #[error("a wrong continuation in line {0}")]
    BadContinuation(u32),
}

/// Why a source isn't unfolded.
#[derive(Debug, Drop, PartialEq, Eq, Error)]
pub enum FormatError {
    #[error("{0}")]
    Fault(FormatFault),
    #[error("out of memory")]
    NoMemory,
}

impl From<NoMemory> for FormatError {
    ghost use Rattle.ref_format.specs.declared.fault.FormatError.TheVariants.{NoMemory as Memory};

    ghost from_gives = { λ _ e. e ≡ Memory };

    fn from(_: NoMemory) -> FormatError {
        FormatError::NoMemory
    }
}
