//! What the code keeps of the places to the left of one, where the text is a mask.
//!
//! A pen of specs/Edited has the shape of the symbols too; along a mask this is enough, and quicker.

ghost use Rattle.std.specs.Prelude.{◌≡◌, ◌==◌, ◌||◌};
ghost use Rattle.edit_fields.specs.LightPen as pens;

use crate::figure::Figure;
use crate::symbol::is_currency_or_sign;

/// The first shown place, or the end of the mask, and what is known of the places before it.
#[derive(Clone, Copy)]
pub struct Reached {
    pub place: usize,
    /// The symbol before it.
    pub last: u8,
    /// How many digits there are to the right of that.
    pub right: usize,
    /// Whether the suppression string has begun.
    pub begun: bool,
}

/// How many digits there are to the right behind a symbol that may be one.
#[inline(always)]
pub fn right_behind(counted: bool, right: usize) -> usize
    ensures { result ≡ pens.right_behind counted right }
{
    if counted {
        right.saturating_sub(1)
    } else {
        right
    }
}

impl Figure {
    /// Whether the suppression string has begun, at its first symbol.
    #[inline(always)]
    pub fn begins(&self, begun: bool, symbol: u8) -> bool
        ensures { result ≡ (begun || symbol == self.now.string) }
    {
        begun || symbol == self.field().string
    }

    /// Whether a symbol is a digit; the string has begun before it, or hasn't.
    #[inline(always)]
    pub fn is_counted(&self, symbol: u8, begun: bool) -> bool
        ensures { result ≡ pens.is_counted self.now symbol begun }
    {
        let string = self.field().string;
        if symbol == string {
            begun || !is_currency_or_sign(string)
        } else {
            symbol == b'9'
        }
    }

    /// In the string a digit that isn't zero; a 9, the period, or the place after V.
    #[inline(always)]
    pub fn is_seen(&self, symbol: u8, counted: bool, right: usize) -> bool
        ensures { result ≡ pens.is_seen self.now symbol counted right }
    {
        if symbol == self.field().string {
            counted && self.digit(right) != 0
        } else {
            symbol == b'9' || symbol == b'.' || symbol == b'V'
        }
    }
}
