//! Tokens.

use cob_base::{Boxed, Text, Word};
use cob_tree::Number;

/// What a token is.
#[derive(Debug, Drop, PartialEq, Eq)]
pub enum TokenKind {
    /// A word, in capitals, reserved or not.
    Word(Word),
    /// Digits alone.
    Digits(Text),
    /// A number with a sign or a decimal point, in a box, so that other tokens aren't as large.
    Decimal(Boxed<Number>),
    /// The bytes of a literal, without its quotation marks.
    Literal(Text),
    /// The picture after PIC or PICTURE.
    Picture(Text),
    Period,
    /// One of `+ - * / = < > ( ) :`.
    Mark(u8),
    /// `<=`
    LessEqual,
    /// `>=`
    GreaterEqual,
    /// `**`
    Power,
}

/// A token, and the line of the source on which it begins, from 1.
#[derive(Debug, Drop, PartialEq, Eq)]
pub struct Token {
    pub kind: TokenKind,
    pub line: u32,
}
