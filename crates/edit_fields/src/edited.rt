//! What a number shows through a mask.

ghost use Rattle.std.specs.Prelude.{◌≡◌, ◌≢◌, ◌≤◌, false, length, map, true};
ghost use Rattle.std.specs.Char.{to_ascii_uppercase};
ghost use Rattle.edit_fields.specs.Symbol.{symbol_v};
ghost use Rattle.edit_fields.specs.Edited as edits;
ghost use Rattle.edit_fields.specs.Edited.{shown_size};
ghost use Rattle.edit_fields.specs.LightPen as pens;
ghost use Rattle.edit_fields.specs.LightPen.{IsReached, blank_written, light_start, light_written};

use crate::field::Field;
use crate::figure::Figure;
use crate::light_pen::{Reached, right_behind};
use crate::shape::Shape;
use crate::symbol::{is_currency_or_sign, is_sign, is_tail_letter};

/// What is known of the places to the left of one. Definitions alone keep the shape: the code finds
/// its way without it (`light_pen`).
#[derive(Clone, Copy)]
pub struct Pen {
    pub shape: Shape,
    /// Whether the suppression string has begun.
    pub begun: bool,
    /// Whether the first shown place was reached.
    pub shown: bool,
}

// C, D, R, and the B behind a D.
#[inline(always)]
fn is_letter(last: u8, symbol: u8) -> bool
    ensures { result ≡ pens.is_letter last symbol }
{
    is_tail_letter(symbol) || symbol == b'R' || (symbol == b'B' && last == b'D')
}

// The byte of a sign: - is shown where the number is negative, and + becomes - there.
#[inline(always)]
fn sign_byte(minus: bool, sign: u8) -> u8
    ensures { result ≡ edits.sign_byte minus sign }
{
    if minus {
        b'-'
    } else if sign == b'+' {
        b'+'
    } else {
        b' '
    }
}

impl Field {
    // The byte of a field of which nothing is shown: a space, or an asterisk, except for the
    // period.
    #[inline(always)]
    fn blank_byte(self, symbol: u8) -> u8
        ensures { result ≡ edits.blank_byte self symbol }
    {
        if self.string != b'*' {
            b' '
        } else if symbol == b'.' {
            b'.'
        } else {
            b'*'
        }
    }

    #[inline(always)]
    fn float_byte(self) -> u8
        ensures { result ≡ edits.float_byte self }
    {
        if self.string == b'$' {
            b'$'
        } else {
            sign_byte(self.minus, self.string)
        }
    }

    // The byte in the string, left of the first shown place, which may be the next.
    #[inline(always)]
    fn hidden_byte(self, next: bool) -> u8
        ensures { result ≡ edits.hidden_byte self next }
    {
        if is_currency_or_sign(self.string) && next {
            self.float_byte()
        } else if self.string == b'*' {
            b'*'
        } else {
            b' '
        }
    }

    // A letter of CR or DB.
    #[inline(always)]
    fn letter_byte(self, letter: u8) -> u8
        ensures { result ≡ edits.letter_byte self letter }
    {
        if self.minus { letter } else { b' ' }
    }
}

impl Figure {
    // A symbol that is no digit, where it is shown: a sign, a letter of the tail, or an insertion,
    // of which B is a space.
    #[inline(always)]
    fn other_byte(&self, last: u8, symbol: u8) -> u8
        ensures { result ≡ pens.other_byte self.now last symbol }
    {
        if is_sign(symbol) {
            sign_byte(self.field().minus, symbol)
        } else if is_letter(last, symbol) {
            self.field().letter_byte(symbol)
        } else if symbol == b'B' {
            b' '
        } else {
            symbol
        }
    }

    // A symbol where it is shown, with so many digits to its right.
    #[inline(always)]
    fn shown_byte(&self, counted: bool, right: usize, last: u8, symbol: u8) -> u8
        ensures { result ≡ pens.shown_by self.now counted right last symbol }
    {
        if counted {
            b'0' + self.digit(right)
        } else {
            self.other_byte(last, symbol)
        }
    }

    // A symbol left of the first shown place, where the next place isn't that.
    #[inline(always)]
    fn left_byte(&self, begun: bool, last: u8, symbol: u8) -> u8
        ensures { result ≡ pens.left_byte self.now begun last symbol }
    {
        if !begun {
            self.other_byte(last, symbol)
        } else {
            self.field().hidden_byte(false)
        }
    }

    // What floats is directly left of the first shown place.
    #[inline(always)]
    fn float(&self, begun: bool, place: usize, into: &mut [u8])
        requires some { begun ≡ true → 1 ≤ place }
        requires within { place ≤ length into.old }
        ensures { into.new ≡ pens.floated self.now begun place into.old }
    {
        if begun {
            into[place - 1] = self.field().hidden_byte(true);
        }
    }
}

/// How many bytes a mask shows: a V has none.
pub fn mask_size(mask: &[u8]) -> usize
    ensures { result ≡ shown_size mask.now }
{
    let mut size = 0;
    for (place, byte) in mask.iter().enumerate() {
        let symbol = byte.to_ascii_uppercase();
        if symbol == b'V' {
            continue;
        }
        size += 1;
    }
    size
}

// Writes the bytes of a field of which nothing is shown.
fn write_blank(field: Field, mask: &[u8], into: &mut [u8])
    requires { length into.old ≡ shown_size mask.now }
    ensures { into.new ≡ blank_written field mask.now }
{
    let mut at = 0;
    for (place, byte) in mask.iter().enumerate() {
        let symbol = byte.to_ascii_uppercase();
        if symbol == b'V' {
            continue;
        }
        into[at] = field.blank_byte(symbol);
        at += 1;
    }
}

// Writes the bytes to the left of the first shown place, of which each symbol has one.
fn write_hidden(figure: &Figure, mask: &[u8], into: &mut [u8]) -> Reached
    requires visible { figure.now.blank ≡ false }
    requires string { figure.now.string ≢ symbol_v }
    requires capitals { map to_ascii_uppercase mask.now ≡ mask.now }
    requires room { length into.old ≡ shown_size mask.now }
    ensures { IsReached figure.now mask.now into.new result }
{
    let mut last = 0;
    let mut right = usize::from(figure.field().digits);
    let mut begun = false;
    for (place, byte) in mask.iter().enumerate() {
        let symbol = *byte;
        let counted = figure.is_counted(symbol, begun);
        let behind = right_behind(counted, right);
        if figure.is_seen(symbol, counted, behind) {
            figure.float(begun, place, into);
            return Reached {
                place,
                last,
                right,
                begun,
            };
        }
        right = behind;
        begun = figure.begins(begun, symbol);
        into[place] = figure.left_byte(begun, last, symbol);
        last = symbol;
    }
    Reached {
        place: mask.len(),
        last,
        right,
        begun,
    }
}

// Writes the bytes from the first shown place on.
fn write_shown(figure: &Figure, mask: &[u8], reached: Reached, into: &mut [u8])
    requires visible { figure.now.blank ≡ false }
    requires capitals { map to_ascii_uppercase mask.now ≡ mask.now }
    requires reached { IsReached figure.now mask.now into.old reached }
    ensures { into.new ≡ light_written figure.now (light_start figure.now) mask.now }
{
    let mut last = reached.last;
    let mut right = reached.right;
    let mut begun = reached.begun;
    let mut at = reached.place;
    for place in reached.place..mask.len() {
        let before = last;
        let symbol = mask[place];
        let counted = figure.is_counted(symbol, begun);
        right = right_behind(counted, right);
        begun = figure.begins(begun, symbol);
        last = symbol;
        if symbol == b'V' {
            continue;
        }
        into[at] = figure.shown_byte(counted, right, before, symbol);
        at += 1;
    }
}

/// Writes the bytes that a field shows through symbols in capitals.
pub fn write(field: Field, mask: &[u8], into: &mut [u8])
    requires string { field.string ≢ symbol_v }
    requires capitals { map to_ascii_uppercase mask.now ≡ mask.now }
    requires room { length into.old ≡ shown_size mask.now }
    ensures { into.new ≡ light_written field (light_start field) mask.now }
{
    let blank = field.blank;
    if blank {
        write_blank(field, mask, into);
        return;
    }
    let figure = Figure::of(field);
    let reached = write_hidden(&figure, mask, into);
    write_shown(&figure, mask, reached, into);
}
