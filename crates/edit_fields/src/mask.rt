//! A mask, as a program holds it.

ghost use Rattle.std.specs.Prelude.{◌≡◌, ◌≤◌, ◌<◌, ◌^◌, length};
ghost use Rattle.edit_fields.specs.Mask.{IsHeldMask, held};
ghost use Rattle.edit_fields.specs.Field as fields;
ghost use Rattle.edit_fields.specs.Field.{IsMask, IsNumber};
ghost use Rattle.edit_fields.specs.Edited.{edited, shown_size};

use crate::fault::MaskFault;
use crate::field::{Digits, field_of, shape_of};
use crate::shape::Shape;
use crate::symbols::{Symbols, written_out};
use crate::{edited, mask_fault};
use cob_num::Dec;
use std::fmt;
use std::marker::Model;

/// A mask in capitals, of at most 160 symbols, its counts written out.
///
/// Contracts see a mask as its symbols.
#[derive(Clone, Copy)]
pub struct Mask {
    symbols: Symbols,
    // What the symbols are together, so that no call has to walk them for it.
    shape: Shape,
    // How many bytes they show.
    size: u8,
}

impl Model for Mask {
    ghost use Rattle.std.specs.Prelude.{List, ℕ};

    ghost Value = { List ℕ };

    ghost use Rattle.edit_fields.specs.Mask.{mask_bytes, IsHeld, mask_of, mask_of-mask_bytes};

    ghost view = { mask_bytes };

    ghost invariant = { IsHeld };

    ghost inverse = { mask_of };

    ghost inverse_ok = { mask_of-mask_bytes };
}

impl Mask {
    /// The mask of a text, its letters in either case, or why it is none.
    pub fn new(text: &[u8]) -> Result<Mask, MaskFault>
        requires { length text.now < 2 ^ 31 }
        ensures { result ≡ held text.now }
    {
        match mask_fault(text) {
            None => Ok(Mask::of(written_out(text))),
            Some(fault) => Err(fault),
        }
    }

    // The mask of these symbols.
    fn of(symbols: Symbols) -> Mask
        requires { IsHeldMask symbols }
        ensures { result ≡ symbols }
    {
        let shape = shape_of(symbols.as_slice());
        let size = edited::mask_size(symbols.as_slice()) as u8;
        Mask {
            symbols,
            shape,
            size,
        }
    }

    /// The symbols of the mask.
    pub fn as_slice(&self) -> &[u8]
        ensures value { result.now ≡ self.now }
        ensures mask { IsHeldMask self.now }
        ensures short { length self.now ≤ 160 }
    {
        self.symbols.as_slice()
    }

    /// How many digits the mask has.
    pub fn digits(&self) -> Digits
        ensures digits { result ≡ fields.digits_of self.now }
        ensures number { IsNumber result.whole result.part }
    {
        Digits {
            whole: self.shape.whole,
            part: self.shape.part,
        }
    }

    /// How many bytes the mask shows.
    pub fn size(&self) -> u32
        ensures size { result ≡ shown_size self.now }
        ensures short { result ≤ 160 }
    {
        u32::from(self.size)
    }

    /// The bytes that a value shows through the mask.
    pub fn edit(&self, value: Dec, into: &mut [u8])
        requires { length into.old ≡ shown_size self.now }
        ensures { into.new ≡ edited self.now value }
    {
        edited::write(field_of(value, self.shape), self.as_slice(), into)
    }
}

/// The bytes that a value shows through a mask whose counts are written out; `into` has one byte
/// for each symbol of the mask, except V.
pub fn edit(mask: &[u8], value: Dec, into: &mut [u8])
    requires mask { IsMask mask.now }
    requires size { length into.old ≡ shown_size mask.now }
    ensures { into.new ≡ edited mask.now value }
{
    let held = Mask::of(written_out(mask));
    held.edit(value, into);
}

impl fmt::Debug for Mask {
    fn fmt<W: fmt::Write>(&self, f: &mut fmt::Formatter<W>) -> fmt::Result {
        for byte in self.as_slice() {
            f.write_char(char::from(*byte))?;
        }
        Ok(())
    }
}

impl PartialEq for Mask {
    ghost use Rattle.std.specs.Str.{bytes_eq};
    ghost use Rattle.std.proofs.Common.{rules};
    ghost use Rattle.std.specs.Cmp.Rules.{comparing};

    ghost eq = { bytes_eq };

    ghost laws = { Prim.search (comparing, rules) };

    fn eq(&self, other: &Mask) -> bool {
        self.as_slice() == other.as_slice()
    }
}

impl Eq for Mask {
    ghost use Rattle.std.proofs.Common.{rules};
    ghost use Rattle.std.specs.Cmp.Rules.{comparing};

    ghost laws = { Prim.search (comparing, rules) };
}
