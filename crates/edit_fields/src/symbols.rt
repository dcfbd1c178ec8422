//! The symbols of a mask, its counts written out.

ghost use Rattle.std.specs.Prelude.{◌≡◌, ◌<◌, ◌≤◌, ◌+◌, ◌++◌, [], ◌∷◌, length, replicate};
ghost use Rattle.edit_fields.specs.Reading as readings;

use crate::reading::{counted, is_digit};
use std::marker::Model;

/// At most 160 symbols.
#[derive(Clone, Copy)]
pub struct Symbols {
    bytes: [u8; 160],
    len: u8,
}

impl Model for Symbols {
    ghost use Rattle.std.specs.Prelude.{List, ℕ};

    ghost Value = { List ℕ };

    ghost use Rattle.edit_fields.specs.Symbols.{symbol_bytes, IsPadded, symbols_of, symbols_of-symbol_bytes};

    ghost view = { symbol_bytes };

    ghost invariant = { IsPadded };

    ghost inverse = { symbols_of };

    ghost inverse_ok = { symbols_of-symbol_bytes };
}

impl Symbols {
    fn none() -> Symbols
        ensures { result ≡ [] }
    {
        Symbols {
            bytes: [0; 160],
            len: 0,
        }
    }

    fn push(&mut self, symbol: u8)
        requires { length self.old < 160 }
        ensures { self.new ≡ self.old ++ symbol ∷ [] }
    {
        self.bytes[self.len as usize] = symbol;
        self.len += 1;
    }

    fn repeat(&mut self, count: u8, symbol: u8)
        requires { length self.old + count ≤ 160 }
        ensures { self.new ≡ self.old ++ replicate count symbol }
    {
        for turn in 0..count {
            self.push(symbol);
        }
    }

    /// The bytes of the symbols.
    pub fn as_slice(&self) -> &[u8]
        ensures value { result.now ≡ self.now }
        ensures short { length self.now ≤ 160 }
    {
        &self.bytes[..self.len as usize]
    }
}

/// The symbols of a text, its letters in capitals and its counts written out.
pub fn written_out(text: &[u8]) -> Symbols
    requires { length (readings.written_out text.now) ≤ 160 }
    ensures { result ≡ readings.written_out text.now }
{
    let mut symbols = Symbols::none();
    let mut last = 0;
    let mut count: Option<u8> = None;
    for (place, byte) in text.iter().enumerate() {
        let upper = byte.to_ascii_uppercase();
        match count {
            Some(so_far) => {
                if is_digit(upper) {
                    count = Some(counted(so_far, upper - b'0'));
                } else {
                    symbols.repeat(so_far.saturating_sub(1), last);
                    count = None;
                }
            }
            None => {
                if upper == b'(' {
                    count = Some(0);
                } else {
                    symbols.push(upper);
                    last = upper;
                }
            }
        }
    }
    symbols
}
