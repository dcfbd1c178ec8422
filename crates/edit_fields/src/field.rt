//! A mask as a whole, and a number that is cut to its digits.

ghost use Rattle.std.specs.Prelude.{◌≡◌, ◌^◌, ◌<◌, unsigned_abs};
ghost use Rattle.edit_fields.specs.Field as fields;
ghost use Rattle.edit_fields.specs.Field.{IsMask, IsNumber};

use crate::shape::Shape;
use cob_num::{Dec, store};

/// How many digits a mask has to the left of the point, and to the right of it.
#[derive(Clone, Copy, Debug, PartialEq, Eq)]
pub struct Digits {
    pub whole: u8,
    pub part: u8,
}

/// A number that is cut to the digits of a mask.
#[derive(Clone, Copy)]
pub struct Field {
    /// The symbol of the mask's suppression string, or 0.
    pub string: u8,
    pub digits: u16,
    pub number: u64,
    pub minus: bool,
    /// Whether nothing is shown of it.
    pub blank: bool,
}

// The shape with one more symbol; unchanged where the symbol may not come.
pub fn moved(shape: Shape, symbol: u8) -> Shape
    ensures { result ≡ fields.moved symbol shape }
{
    match shape.behind(symbol) {
        Some(next) => next,
        None => shape,
    }
}

/// The shape of all symbols of a mask whose counts are written out.
pub fn shape_of(mask: &[u8]) -> Shape
    ensures shape { result ≡ fields.shape_of mask.now }
    ensures number { IsMask mask.now → IsNumber result.whole result.part }
{
    let mut shape = Shape::empty();
    for (place, byte) in mask.iter().enumerate() {
        shape = moved(shape, byte.to_ascii_uppercase());
    }
    shape
}

/// How many digits a mask has whose counts are written out: 1 to 18 together.
pub fn mask_digits(mask: &[u8]) -> Digits
    ensures digits { result ≡ fields.digits_of mask.now }
    ensures number { IsMask mask.now → IsNumber result.whole result.part }
{
    let shape = shape_of(mask);
    Digits {
        whole: shape.whole,
        part: shape.part,
    }
}

// The number that remains of a value that is cut.
fn cut(value: Dec, shape: Shape) -> i128
    requires { IsNumber shape.whole shape.part }
    ensures value { result ≡ fields.cut value shape }
    ensures short { unsigned_abs result < 2 ^ 64 }
{
    store(value, shape.whole + shape.part, shape.part, false).value
}

/// A value, cut to the digits of a mask of this shape.
pub fn field_of(value: Dec, shape: Shape) -> Field
    requires { IsNumber shape.whole shape.part }
    ensures { result ≡ fields.field_of value shape }
{
    let cut = cut(value, shape);
    let number = cut.unsigned_abs() as u64;
    Field {
        string: shape.string,
        digits: shape.digits(),
        number,
        minus: cut < 0,
        blank: !shape.nines && number == 0,
    }
}
