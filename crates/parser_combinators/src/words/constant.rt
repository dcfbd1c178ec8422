//! Literals and figurative constants.

ghost use Rattle.std.specs.Prelude.{◌≡◌};
ghost use Rattle.std.specs.Str.{bytes_eq};
ghost use Rattle.parser_combinators.specs.Form as form;
ghost use Rattle.parser_combinators.specs.Part as part;
ghost use Rattle.parser_combinators.specs.Reading.{Reads};
ghost use Rattle.parser_combinators.specs.words.Constant as constants;

use crate::{Cursor, Position, Unread, Why};
use cob_base::Word;
use cob_tree::{Figure, Number, Operand, SpelledDigits};
use cobol_lex::TokenKind;
use std::alloc::Global;

fn is_spelled(word: &Word, bytes: &[u8]) -> bool
    ensures { result ≡ bytes_eq word.now bytes.now }
{
    word.as_slice() == bytes
}

fn is_either(word: &Word, one: &[u8], other: &[u8]) -> bool
    ensures { result ≡ constants.is_either one.now other.now word.now }
{
    is_spelled(word, one) || is_spelled(word, other)
}

#[tactic(auto, unfolding(crate::specs::words::Constant::figure_of_word))]
fn figure_of_word(word: &Word) -> Option<Figure>
    ensures { result ≡ constants.figure_of_word word.now }
{
    if is_spelled(word, b"ZERO") || is_either(word, b"ZEROS", b"ZEROES") {
        Some(Figure::Zero)
    } else if is_either(word, b"SPACE", b"SPACES") {
        Some(Figure::Space)
    } else if is_either(word, b"HIGH-VALUE", b"HIGH-VALUES") {
        Some(Figure::HighValue)
    } else if is_either(word, b"LOW-VALUE", b"LOW-VALUES") {
        Some(Figure::LowValue)
    } else if is_either(word, b"QUOTE", b"QUOTES") {
        Some(Figure::Quote)
    } else {
        None
    }
}

/// Whether digits without sign and point are next.
pub fn sees_digits(cursor: &Cursor<'_>) -> bool
    ensures { result ≡ form.is_next constants.is_digits cursor.now }
{
    match cursor.peek() {
        Some(TokenKind::Digits(_)) => true,
        _ => false,
    }
}

fn sees_decimal(cursor: &Cursor<'_>) -> bool
    ensures { result ≡ form.is_next constants.is_decimal cursor.now }
{
    match cursor.peek() {
        Some(TokenKind::Decimal(_)) => true,
        _ => false,
    }
}

/// Whether a literal in quotation marks is next.
pub fn sees_text(cursor: &Cursor<'_>) -> bool
    ensures { result ≡ form.is_next constants.is_text cursor.now }
{
    match cursor.peek() {
        Some(TokenKind::Literal(_)) => true,
        _ => false,
    }
}

/// Whether a literal or a figurative constant is next.
#[tactic(auto, unfolding(crate::specs::words::Constant::begins_literal))]
pub fn sees_literal(cursor: &Cursor<'_>) -> bool
    ensures { result ≡ form.is_next constants.begins_literal cursor.now }
{
    match cursor.peek() {
        Some(TokenKind::Digits(_)) | Some(TokenKind::Decimal(_)) | Some(TokenKind::Literal(_)) => {
            true
        }
        Some(TokenKind::Word(word)) => figure_of_word(word).is_some(),
        _ => false,
    }
}

fn figure_word(cursor: &mut Cursor<'_>) -> Result<(Figure, Position), Unread>
    ensures { Reads ((part.valued constants.figure_of).reads cursor.old) result cursor.new }
{
    let figure = match cursor.peek() {
        Some(TokenKind::Word(word)) => figure_of_word(word),
        _ => None,
    };
    match figure {
        None => Err(Unread::Stop(Why::Syntax)),
        Some(figure) => {
            let (_, position) = cursor.word()?;
            Ok((figure, position))
        }
    }
}

#[tactic(auto, unfolding(crate::specs::words::Constant::figure))]
fn figure(cursor: &mut Cursor<'_>) -> Result<(Operand, Position), Unread>
    ensures { Reads (constants.figure.reads cursor.old) result cursor.new }
{
    let (figure, position) = figure_word(cursor)?;
    Ok((Operand::Figure(figure), position))
}

#[tactic(auto, unfolding(crate::specs::words::Constant::whole_number))]
fn whole_number(alloc: Global, cursor: &mut Cursor<'_>) -> Result<(Operand, Position), Unread>
    ensures { Reads (constants.whole_number.reads cursor.old) result cursor.new }
{
    let (digits, position) = cursor.digits(alloc)?;
    let number = Number {
        negative: false,
        digits: SpelledDigits::new(digits),
        scale: 0,
    };
    Ok((Operand::Number(number), position))
}

#[tactic(auto, unfolding(crate::specs::words::Constant::other_number))]
fn other_number(alloc: Global, cursor: &mut Cursor<'_>) -> Result<(Operand, Position), Unread>
    ensures { Reads (constants.other_number.reads cursor.old) result cursor.new }
{
    let (number, position) = cursor.decimal(alloc)?;
    Ok((Operand::Number(number), position))
}

#[tactic(auto, unfolding(crate::specs::words::Constant::text))]
fn text(alloc: Global, cursor: &mut Cursor<'_>) -> Result<(Operand, Position), Unread>
    ensures { Reads (constants.text.reads cursor.old) result cursor.new }
{
    let (bytes, position) = cursor.literal(alloc)?;
    Ok((Operand::Text(bytes), position))
}

#[tactic(auto, unfolding(crate::specs::words::Constant::text_or_figure))]
fn text_or_figure(alloc: Global, cursor: &mut Cursor<'_>) -> Result<(Operand, Position), Unread>
    ensures { Reads (constants.text_or_figure.reads cursor.old) result cursor.new }
{
    if sees_text(cursor) {
        text(alloc, cursor)
    } else {
        figure(cursor)
    }
}

/// Takes a literal or a figurative constant, and gives it with its position.
#[tactic(auto, unfolding(crate::specs::words::Constant::literal))]
pub fn literal(alloc: Global, cursor: &mut Cursor<'_>) -> Result<(Operand, Position), Unread>
    ensures { Reads (constants.literal.reads cursor.old) result cursor.new }
{
    if sees_digits(cursor) {
        whole_number(alloc, cursor)
    } else if sees_decimal(cursor) {
        other_number(alloc, cursor)
    } else {
        text_or_figure(alloc, cursor)
    }
}
