//! Pictures: from the text after PIC to what an item holds.
//!
//! `read_picture` reads numbers (S, 9 and V), characters (X, A and 9) and masks, with counts.
//! `specs/Reading` and `specs/Edited` are to be compared with ISO 1989:1985, PICTURE clause. The
//! byte that a fault names is the first up to which no picture begins, or the last where more are
//! needed; where an X, A or S is in a mask, the first of these.
#![tactic(auto)]

mod edited;
mod fault;
mod reading;
mod symbols;

ghost use Rattle.std.specs.Prelude.{◌≡◌, ◌<◌, ◌^◌, length};
ghost use Rattle.picture_data.specs.Reading.{picture_of};

use crate::edited::{edited_picture, is_edited};
use crate::reading::plain_picture;
use cob_tree::Picture;
pub use fault::PictureFault;
pub use reading::{PictureReading, SymbolPosition};
pub use symbols::{PictureShape, PictureSymbols};

/// The picture of this text, its letters in either case.
pub fn read_picture(text: &[u8]) -> Result<Picture, PictureFault>
    requires { length text.now < 2 ^ 31 }
    ensures { result ≡ picture_of text.now }
{
    if is_edited(text) {
        edited_picture(text)
    } else {
        plain_picture(text)
    }
}
