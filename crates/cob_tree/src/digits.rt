//! Digits, and the number that they spell.

ghost use Rattle.std.specs.Prelude.{◌≡◌, ◌^◌, ◌<◌, IfSome};
ghost use Rattle.cob_tree.specs.Digits.{digits_value, is_digit};

use cob_base::{Copied, NoMemory, Text};
use std::alloc::Global;
use std::marker::Model;

/// The most digits that a number can have.
const MOST_DIGITS: usize = 18;

/// Digits as they were written, with the number that they spell, so that no run has to compute it.
/// Contracts see the digits alone.
#[derive(Debug, Drop)]
pub struct SpelledDigits {
    text: Text,
    number: Option<u64>,
    ghost decoded: { number ≡ digits_value text },
}

impl Model for SpelledDigits {
    ghost use Rattle.std.specs.Prelude.{List, ℕ};

    ghost Value = { List ℕ };

    ghost view = { λ d. d.text };
}

impl SpelledDigits {
    /// These digits, with the number that they spell.
    pub fn new(text: Text) -> SpelledDigits
        ensures { result ≡ text }
    {
        let number = digits_value(text.as_slice());
        SpelledDigits { text, number }
    }

    /// The digits as bytes.
    pub fn as_slice(&self) -> &[u8]
        ensures { result.now ≡ self.now }
    {
        self.text.as_slice()
    }

    /// The number; none where there are more than 18 digits.
    pub fn number(&self) -> Option<u64>
        ensures { result ≡ digits_value self.now }
    {
        self.number
    }
}

impl Copied for SpelledDigits {
    fn copy(&self, alloc: Global) -> Result<SpelledDigits, NoMemory> {
        Ok(SpelledDigits {
            text: self.text.copy(alloc)?,
            number: self.number,
        })
    }
}

impl PartialEq for SpelledDigits {
    ghost use Rattle.std.proofs.Common.{rules};
    ghost use Rattle.std.specs.Cmp.Rules.{comparing};
    ghost use Rattle.std.specs.Str.{bytes_eq};

    ghost eq = { bytes_eq };

    ghost laws = { Prim.search (comparing, rules) };

    fn eq(&self, other: &SpelledDigits) -> bool {
        self.as_slice() == other.as_slice()
    }
}

impl Eq for SpelledDigits {
    ghost use Rattle.std.proofs.Common.{rules};
    ghost use Rattle.std.specs.Cmp.Rules.{comparing};

    ghost laws = { Prim.search (comparing, rules) };
}

/// Whether the byte is a digit.
pub fn is_digit(byte: u8) -> bool
    ensures { result ≡ is_digit byte }
{
    byte >= b'0' && byte <= b'9'
}

/// The number that these digits spell; none where they are more than 18 or not digits.
pub fn digits_value(bytes: &[u8]) -> Option<u64>
    ensures value { result ≡ digits_value bytes.now }
    ensures short { IfSome result (λ number. number < 10 ^ 18) }
{
    if bytes.len() > MOST_DIGITS {
        return None;
    }
    let mut number = 0u64;
    for byte in bytes {
        if !is_digit(*byte) {
            return None;
        }
        number = number * 10 + u64::from(*byte - b'0');
    }
    Some(number)
}
