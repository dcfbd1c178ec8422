//! Edited pictures: which texts are taken as masks, and what they are.

ghost use Rattle.std.specs.Prelude.{◌≡◌, ◌<◌, ◌^◌, length};
ghost use Rattle.picture_data.specs.Edited as edits;

use crate::fault::PictureFault;
use cob_tree::Picture;
use edit_fields::{Mask, MaskFault};

// A symbol that masks alone have.
fn is_edit_symbol(symbol: u8) -> bool
    ensures { result ≡ edits.is_edit_symbol symbol }
{
    match symbol {
        b'+' | b'-' | b'$' | b'Z' | b'*' | b'B' | b'/' | b',' | b'.' | b'C' | b'D' | b'R' => true,
        _ => false,
    }
}

// Whether the byte is such a symbol, or a 0 outside a count.
fn is_edit_byte(byte: u8, counts: bool) -> bool
    ensures { result ≡ edits.is_edit_byte byte counts }
{
    is_edit_symbol(byte.to_ascii_uppercase()) || (byte == b'0' && !counts)
}

// Whether the next byte is in a count.
fn counts_behind(byte: u8, counts: bool) -> bool
    ensures { result ≡ edits.counts_behind byte counts }
{
    byte == b'(' || (counts && byte != b')')
}

/// Whether the text is taken as a mask: it has a symbol that masks alone have, or a 0 outside a
/// count.
pub fn is_edited(text: &[u8]) -> bool
    ensures { result ≡ edits.is_edited text.now }
{
    let mut counts = false;
    for (place, byte) in text.iter().enumerate() {
        if is_edit_byte(*byte, counts) {
            return true;
        }
        counts = counts_behind(*byte, counts);
    }
    false
}

fn is_plain_symbol(symbol: u8) -> bool
    ensures { result ≡ edits.is_plain_symbol symbol }
{
    symbol == b'X' || symbol == b'A' || symbol == b'S'
}

// Where the first X, A or S is, from 1.
fn first_plain(text: &[u8]) -> Option<u32>
    requires { length text.now < 2 ^ 31 }
    ensures { result ≡ edits.first_plain 0 text.now }
{
    for (before, byte) in text.iter().enumerate() {
        if is_plain_symbol(byte.to_ascii_uppercase()) {
            return Some(before as u32 + 1);
        }
    }
    None
}

fn fault_of(fault: MaskFault) -> PictureFault
    ensures { result ≡ edits.fault_of fault }
{
    match fault {
        MaskFault::Symbol(byte) => PictureFault::BadSymbol(byte),
        MaskFault::Order(byte) => PictureFault::BadOrder(byte),
        MaskFault::TooManyDigits(byte) => PictureFault::TooManyDigits(byte),
    }
}

/// The picture of a text that is taken as a mask.
pub fn edited_picture(text: &[u8]) -> Result<Picture, PictureFault>
    requires { length text.now < 2 ^ 31 }
    ensures { result ≡ edits.edited_picture text.now }
{
    match first_plain(text) {
        Some(byte) => Err(PictureFault::BadOrder(byte)),
        None => match Mask::new(text) {
            Ok(mask) => Ok(Picture::Edited(mask)),
            Err(fault) => Err(fault_of(fault)),
        },
    }
}
