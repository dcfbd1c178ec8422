//! How a token is written.

ghost use Rattle.std.specs.Prelude.{◌≡◌, ◌++◌, IfSome, OnOk};
ghost use Rattle.cob_base.specs.Answers.{Makes};
ghost use Rattle.cobol_lex.specs.Written.{written, doubled};
ghost use Rattle.cobol_lex.specs.declared.token.TokenKind.TheVariants as kind;

use cob_base::{NoMemory, Text};
use cob_tree::Number;
use cobol_lex::TokenKind;
use std::alloc::Global;
use std::slice::from_ref;

/// The bytes with which a token is written, where it holds them itself.
pub fn held_bytes(token: &TokenKind) -> Option<&[u8]>
    ensures { IfSome result (λ bytes. bytes.now ≡ written token.now) }
{
    match token {
        TokenKind::Word(word) => Some(word.as_slice()),
        TokenKind::Digits(digits) => Some(digits.as_slice()),
        TokenKind::Picture(picture) => Some(picture.as_slice()),
        TokenKind::Period => Some(b".".as_slice()),
        TokenKind::Mark(mark) => Some(from_ref(mark)),
        TokenKind::LessEqual => Some(b"<=".as_slice()),
        TokenKind::GreaterEqual => Some(b">=".as_slice()),
        TokenKind::Power => Some(b"**".as_slice()),
        TokenKind::Decimal(_) | TokenKind::Literal(_) => None,
    }
}

/// The bytes with which a token is written.
pub fn spelled(alloc: Global, token: &TokenKind) -> Result<Text, NoMemory>
    ensures { Makes (written token.now) result }
{
    let mut text = Text::new(alloc);
    match token {
        TokenKind::Word(word) => text.add(word.as_slice())?,
        TokenKind::Digits(digits) => text.add(digits.as_slice())?,
        TokenKind::Decimal(number) => add_number(&mut text, number.get())?,
        TokenKind::Literal(value) => add_literal(&mut text, value.as_slice())?,
        TokenKind::Picture(picture) => text.add(picture.as_slice())?,
        TokenKind::Period => text.add(b".")?,
        TokenKind::Mark(mark) => text.add(&[*mark])?,
        TokenKind::LessEqual => text.add(b"<=")?,
        TokenKind::GreaterEqual => text.add(b">=")?,
        TokenKind::Power => text.add(b"**")?,
    }
    Ok(text)
}

/// Adds a literal in its marks, each `"` in it doubled.
fn add_literal(text: &mut Text, value: &[u8]) -> Result<(), NoMemory>
    ensures { OnOk result (text.new ≡ text.old ++ written (kind.Literal value.now)) }
{
    text.add(b"\"")?;
    add_doubled(text, value)?;
    text.add(b"\"")
}

fn add_doubled(text: &mut Text, value: &[u8]) -> Result<(), NoMemory>
    ensures { OnOk result (text.new ≡ text.old ++ doubled value.now) }
{
    for byte in value {
        if *byte == b'"' {
            text.add(b"\"")?;
        }
        text.add(&[*byte])?;
    }
    Ok(())
}

fn add_number(text: &mut Text, number: &Number) -> Result<(), NoMemory>
    ensures { OnOk result (text.new ≡ text.old ++ written (kind.Decimal number.now)) }
{
    if number.negative {
        text.add(b"-")?;
    } else if number.scale == 0 {
        text.add(b"+")?;
    }
    let digits = number.digits.as_slice();
    if number.scale == 0 {
        return text.add(digits);
    }
    let whole = digits.len().saturating_sub(number.scale as usize);
    text.add(&digits[..whole])?;
    text.add(b".")?;
    text.add(&digits[whole..])
}
