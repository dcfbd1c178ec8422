//! Whether a literal fits an item.

ghost use Rattle.std.specs.Prelude.{◌≡◌, drop, position};
ghost use Rattle.std.specs.List.{list_all};
ghost use Rattle.declaration_checks.specs.Literal as literals;

use cob_tree::{Figure, Number, Operand, Picture};

/// What a literal has to fit: a group, or an item with this picture, and its bytes.
#[derive(Clone, Copy, Debug)]
pub struct LiteralTarget {
    pub group: bool,
    /// None where it has none, or a text that isn't a picture.
    pub picture: Option<Picture>,
    pub size: u32,
}

fn is_zero(digit: u8) -> bool
    ensures { result ≡ literals.is_zero digit }
{
    digit == b'0'
}

fn is_more(digit: u8) -> bool
    ensures { result ≡ literals.is_more digit }
{
    !is_zero(digit)
}

fn first_more(digits: &[u8]) -> Option<usize>
    ensures { result ≡ position literals.is_more digits.now }
{
    digits.iter().position(|digit| is_more(*digit))
}

/// How many digits there are from the first one that isn't zero on.
fn leading_digits(digits: &[u8]) -> usize
    ensures { result ≡ literals.leading_digits digits.now }
{
    match first_more(digits) {
        None => 0,
        Some(at) => digits.len().saturating_sub(at),
    }
}

fn all_zeros(digits: &[u8]) -> bool
    ensures { result ≡ list_all literals.is_zero digits.now }
{
    digits.iter().all(|digit| is_zero(*digit))
}

// Whether all digits after the first `count` are zeros.
fn zeros_behind(digits: &[u8], count: usize) -> bool
    ensures { result ≡ list_all literals.is_zero (drop count digits.now) }
{
    if count < digits.len() {
        all_zeros(&digits[count..])
    } else {
        true
    }
}

/// The digits before the decimal point.
fn whole_digits(number: &Number) -> &[u8]
    ensures { result.now ≡ literals.whole_digits number.now }
{
    let digits = number.digits.as_slice();
    &digits[..digits.len().saturating_sub(usize::from(number.scale))]
}

/// The digits after the decimal point.
fn part_digits(number: &Number) -> &[u8]
    ensures { result.now ≡ literals.part_digits number.now }
{
    let digits = number.digits.as_slice();
    &digits[digits.len().saturating_sub(usize::from(number.scale))..]
}

/// Whether a picture of this form can hold the number's value.
fn number_fits(number: &Number, signed: bool, whole: u8, part: u8) -> bool
    ensures { result ≡ literals.number_fits number.now signed whole part }
{
    leading_digits(whole_digits(number)) <= usize::from(whole)
        && zeros_behind(part_digits(number), usize::from(part))
        && (signed || !number.negative || all_zeros(number.digits.as_slice()))
}

fn fits_number(literal: &Operand, signed: bool, whole: u8, part: u8) -> bool
    ensures { result ≡ literals.fits_number literal.now signed whole part }
{
    match literal {
        Operand::Number(number) => number_fits(number, signed, whole, part),
        Operand::Figure(Figure::Zero) => true,
        _ => false,
    }
}

/// Whether it is a text of at most so many bytes, or a figurative constant.
fn fits_text(literal: &Operand, size: u32) -> bool
    ensures { result ≡ literals.fits_text literal.now size }
{
    match literal {
        Operand::Text(text) => text.len() <= size as usize,
        Operand::Figure(_) => true,
        _ => false,
    }
}

fn fits_picture(literal: &Operand, picture: Option<Picture>, size: u32) -> bool
    ensures { result ≡ literals.fits_picture literal.now picture size }
{
    match picture {
        None => true,
        Some(
            Picture::Number {
                signed,
                whole,
                part,
            },
        ) => fits_number(literal, signed, whole, part),
        Some(_) => fits_text(literal, size),
    }
}

/// Whether a literal fits an item.
pub fn fits(literal: &Operand, target: &LiteralTarget) -> bool
    ensures { result ≡ literals.fits literal.now target.now }
{
    if target.group {
        fits_text(literal, target.size)
    } else {
        fits_picture(literal, target.picture, target.size)
    }
}
