//! What is wrong with a text that has no tokens, and why none are made.

ghost use Rattle.std.specs.Prelude.{◌≡◌};

use cob_base::NoMemory;
use std::alloc::{AllocError, AllocFailed};
use thiserror::Error;

/// The first fault of a text, with the line of the source on which the token begins, from 1.
#[derive(Clone, Copy, Debug, PartialEq, Eq, Error)]
pub enum LexFault {
    /// A literal without a closing mark on its line.
    #[error("literal without end in line {0}")]
    OpenLiteral(u32),
    /// A byte that begins no token, a word that isn't one, an empty picture, or a literal that
    /// doesn't have 1 to 160 bytes.
    #[error("bad word in line {0}")]
    BadWord(u32),
    /// A run with a sign or a period that isn't a number.
    #[error("bad number in line {0}")]
    BadNumber(u32),
    /// A number of more than 18 digits.
    #[error("too many digits in line {0}")]
    TooManyDigits(u32),
}

/// Why no tokens are made of a text.
#[derive(Clone, Copy, Debug, PartialEq, Eq, Error)]
pub enum LexError {
    #[error("{0}")]
    Fault(LexFault),
    #[error("out of memory")]
    NoMemory,
}

impl From<NoMemory> for LexError {
    ghost use Rattle.cobol_lex.specs.declared.fault.LexError.TheVariants as variants;

    ghost from_gives = { λ _ fault. fault ≡ variants.NoMemory };

    fn from(_: NoMemory) -> LexError {
        LexError::NoMemory
    }
}

impl From<AllocError> for LexError {
    ghost use Rattle.cobol_lex.specs.declared.fault.LexError.TheVariants as variants;

    ghost from_gives = { λ _ fault. fault ≡ variants.NoMemory };

    fn from(_: AllocError) -> LexError {
        LexError::NoMemory
    }
}
