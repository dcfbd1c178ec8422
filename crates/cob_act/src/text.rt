//! Comparison of texts.

ghost use Rattle.std.specs.Prelude.{◌≡◌, ◌++◌, drop, length, replicate, take};
ghost use Rattle.meanings.specs.statements.Text.{beside_spaces, byte_order, is_letter, pointed, printed_number, spaces_beside, text_order};

use cob_tree::Number;
use std::cmp::Ordering;

/// The order of two bytes.
pub fn byte_order(a: u8, b: u8) -> Ordering
    ensures { result ≡ byte_order a b }
{
    if a < b {
        Ordering::Less
    } else if a == b {
        Ordering::Equal
    } else {
        Ordering::Greater
    }
}

fn beside_spaces(bytes: &[u8]) -> Ordering
    ensures { result ≡ beside_spaces bytes.now }
{
    for byte in bytes {
        match byte_order(*byte, b' ') {
            Ordering::Less => return Ordering::Less,
            Ordering::Equal => {}
            Ordering::Greater => return Ordering::Greater,
        }
    }
    Ordering::Equal
}

fn spaces_beside(bytes: &[u8]) -> Ordering
    ensures { result ≡ spaces_beside bytes.now }
{
    for byte in bytes {
        match byte_order(b' ', *byte) {
            Ordering::Less => return Ordering::Less,
            Ordering::Equal => {}
            Ordering::Greater => return Ordering::Greater,
        }
    }
    Ordering::Equal
}

/// The order of two texts, of which the shorter counts as padded with spaces.
pub fn text_order(a: &[u8], b: &[u8]) -> Ordering
    ensures { result ≡ text_order a.now b.now }
{
    let mut left = b;
    for (at, byte) in a.iter().enumerate() {
        let Some((first, others)) = left.split_first() else {
            return beside_spaces(&a[at..]);
        };
        match byte_order(*byte, *first) {
            Ordering::Less => return Ordering::Less,
            Ordering::Equal => {}
            Ordering::Greater => return Ordering::Greater,
        }
        left = others;
    }
    spaces_beside(left)
}

/// The order of a byte, repeated to the length of a text, and the text.
pub fn filler_order(byte: u8, text: &[u8]) -> Ordering
    ensures { result ≡ text_order (replicate (length text.now) byte) text.now }
{
    for other in text {
        match byte_order(byte, *other) {
            Ordering::Less => return Ordering::Less,
            Ordering::Equal => {}
            Ordering::Greater => return Ordering::Greater,
        }
    }
    Ordering::Equal
}

/// The order of a text and a byte, repeated to the length of the text.
pub fn order_filler(text: &[u8], byte: u8) -> Ordering
    ensures { result ≡ text_order text.now (replicate (length text.now) byte) }
{
    for other in text {
        match byte_order(*other, byte) {
            Ordering::Less => return Ordering::Less,
            Ordering::Equal => {}
            Ordering::Greater => return Ordering::Greater,
        }
    }
    Ordering::Equal
}

// The order of a piece and the front of a text.
fn front_order(piece: &[u8], text: &[u8]) -> Ordering
    ensures { result ≡ text_order piece.now (take (length piece.now) text.now) }
{
    text_order(piece, &text[..piece.len().min(text.len())])
}

// The text after a piece of that length.
fn behind<'a>(text: &'a [u8], piece: &[u8]) -> &'a [u8]
    ensures { result.now ≡ drop (length piece.now) text.now }
{
    &text[piece.len().min(text.len())..]
}

// The order of two pieces, one after the other, and a text.
#[tactic(auto, using(crate::proofs::Pieces::text_order_pieces))]
fn pieces_order(first: &[u8], second: &[u8], text: &[u8]) -> Ordering
    ensures { result ≡ text_order (first.now ++ second.now) text.now }
{
    match front_order(first, text) {
        Ordering::Less => Ordering::Less,
        Ordering::Equal => text_order(second, behind(text, first)),
        Ordering::Greater => Ordering::Greater,
    }
}

// The order of a number's digits, with its point, and a text.
#[tactic(auto, using(crate::proofs::Pieces::text_order_pieces))]
fn pointed_order(scale: u8, digits: &[u8], text: &[u8]) -> Ordering
    ensures { result ≡ text_order (pointed scale digits.now) text.now }
{
    if scale == 0 {
        return text_order(digits, text);
    }
    let (whole, part) = digits.split_at(digits.len().saturating_sub(scale as usize));
    match front_order(whole, text) {
        Ordering::Less => Ordering::Less,
        Ordering::Equal => pieces_order(b".", part, behind(text, whole)),
        Ordering::Greater => Ordering::Greater,
    }
}

/// The order of a number, as DISPLAY prints it, and a text.
#[tactic(auto, using(crate::proofs::Pieces::text_order_pieces))]
pub fn literal_order(number: &Number, text: &[u8]) -> Ordering
    ensures { result ≡ text_order (printed_number number.now) text.now }
{
    if !number.negative {
        return pointed_order(number.scale, number.digits.as_slice(), text);
    }
    match front_order(b"-", text) {
        Ordering::Less => Ordering::Less,
        Ordering::Equal => pointed_order(
            number.scale,
            number.digits.as_slice(),
            behind(text, b"-"),
        ),
        Ordering::Greater => Ordering::Greater,
    }
}

/// Whether the byte is a letter, in either case.
pub fn is_letter(byte: u8) -> bool
    ensures { result ≡ is_letter byte }
{
    byte >= b'A' && byte <= b'Z' || byte >= b'a' && byte <= b'z'
}
