//! Edited pictures: masks, and what a number shows through one.
//!
//! `mask_fault` judges the text of a mask, `mask_digits` and `mask_size` say how many digits and
//! bytes it has, and `edit` writes what a number shows. A `Mask` is one that a program holds, with
//! these as its methods. `specs/Shape`, on which symbol may follow which, and `specs/Edited`, with
//! one case for each rule, are to be compared with ISO 1989:1985, PICTURE clause; docs/DECISIONS.md
//! has what is narrower here. These laws support them: what was
//! shown is read back (`numbers_are_read_back`), a sign is shown where the number is negative, and
//! only there (`negatives_are_marked`, `only_negatives_are_marked`), a fault of order is at the
//! first byte up to which no mask begins (`beginnings_go_on`), and masks with counts mean those
//! without, also as they are printed (`masks_are_written_out`, `printed_masks_are_read`). Examples
//! that were worked by hand are tests of `front_end_tests`.
#![tactic(auto)]

mod edited;
mod extent;
mod fault;
mod field;
mod figure;
pub mod laws;
mod light_pen;
mod mask;
mod reading;
mod shape;
mod symbol;
mod symbols;

ghost use Rattle.std.specs.Prelude.{◌≡◌, ◌<◌, ◌^◌, length};
ghost use Rattle.edit_fields.specs.Reading as readings;
ghost use Rattle.edit_fields.specs.Reading.{mask_fault_of};

pub use edited::{Pen, mask_size};
pub use extent::Extent;
pub use fault::MaskFault;
pub use field::{Digits, Field, mask_digits};
pub use light_pen::Reached;
pub use mask::{Mask, edit};
pub use reading::{Reading, SymbolPlace, is_written_out};
pub use shape::{Shape, Stage};

/// Why a text, its letters in either case, isn't a mask, or `None` where it is one.
pub fn mask_fault(text: &[u8]) -> Option<MaskFault>
    requires { length text.now < 2 ^ 31 }
    ensures { result ≡ mask_fault_of text.now }
{
    let mut reading = Reading::start();
    for (before, byte) in text.iter().enumerate() {
        match reading.step(before as u32 + 1, byte.to_ascii_uppercase()) {
            Ok(next) => reading = next,
            Err(fault) => return Some(fault),
        }
    }
    reading.end_fault(last_position(text.len() as u32))
}

fn last_position(count: u32) -> u32
    ensures { result ≡ readings.last_position count }
{
    if count == 0 { 1 } else { count }
}
