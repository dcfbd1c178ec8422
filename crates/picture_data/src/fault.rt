//! Why a text isn't a picture.

ghost use Rattle.std.specs.Prelude.{◌≡◌};
ghost use Rattle.picture_data.specs.Fault as faults;

use thiserror::Error;

/// Why a text isn't a picture, with the byte that decides it, from 1.
#[derive(Clone, Copy, Debug, PartialEq, Eq, Error)]
pub enum PictureFault {
    #[error("byte {0}: no symbol of a picture")]
    BadSymbol(u32),
    #[error("byte {0}: no picture goes on so")]
    BadOrder(u32),
    #[error("byte {0}: more than 18 digits")]
    TooManyDigits(u32),
}

/// What is wrong with a byte, or with the end.
#[derive(Clone, Copy, Debug, PartialEq, Eq)]
pub enum Flaw {
    Symbol,
    Order,
    Digits,
}

impl Flaw {
    /// The fault with the byte that decides it, from 1.
    pub fn at(self, byte: u32) -> PictureFault
        ensures { result ≡ faults.fault_at self byte }
    {
        match self {
            Flaw::Symbol => PictureFault::BadSymbol(byte),
            Flaw::Order => PictureFault::BadOrder(byte),
            Flaw::Digits => PictureFault::TooManyDigits(byte),
        }
    }
}
