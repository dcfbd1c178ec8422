//! Numbers.

ghost use Rattle.std.specs.Prelude.{◌≡◌, ◌||◌, ◌≤◌, length, count_by};
ghost use Rattle.std.specs.List.{list_all, list_any};
ghost use Rattle.cobol_lex.specs.Byte.{is_digit, is_point};
ghost use Rattle.cob_base.specs.Answers.{Answers, Makes};
ghost use Rattle.cobol_lex.specs.declared.fault.LexError.TheVariants.{NoMemory as Memory};
ghost use Rattle.cobol_lex.specs.Number.{begins_number, begins_unsigned, number_run, unsigned, unsigned_length};
ghost use Rattle.cobol_lex.specs.Number.{decimal_kind, decimals, digits_kind, digits_of, is_decimal, number_kind};

use crate::byte::{begins_digit, begins_sign, is_digit, is_word_byte, leads_sign};
use crate::fault::{LexError, LexFault};
use crate::token::TokenKind;
use crate::word::word_kind;
use cob_base::{Boxed, NoMemory, Text};
use cob_tree::{Number, SpelledDigits};
use std::alloc::Global;

/// The most digits that a number can have.
const MOST_DIGITS: usize = 18;

fn begins_unsigned(bytes: &[u8]) -> bool
    ensures { result ≡ begins_unsigned bytes.now }
{
    match bytes {
        [b'.', rest @ ..] => begins_digit(rest),
        _ => begins_digit(bytes),
    }
}

/// Whether a number begins here, after the byte `before`.
pub fn begins_number(before: u8, bytes: &[u8]) -> bool
    ensures { result ≡ begins_number before bytes.now }
{
    begins_unsigned(bytes)
        || begins_sign(bytes) && leads_sign(before) && begins_unsigned(&bytes[1..])
}

fn unsigned_length(bytes: &[u8]) -> usize
    ensures value { result ≡ unsigned_length bytes.now }
    ensures within { result ≤ length bytes.now }
{
    for (at, b) in bytes.iter().enumerate() {
        if !is_word_byte(*b) && !(*b == b'.' && begins_digit(&bytes[at + 1..])) {
            return at;
        }
    }
    bytes.len()
}

fn unsigned(bytes: &[u8]) -> &[u8]
    ensures { result.now ≡ unsigned bytes.now }
{
    if begins_sign(bytes) {
        &bytes[1..]
    } else {
        bytes
    }
}

/// The bytes of the number that begins here.
pub fn number_run(bytes: &[u8]) -> &[u8]
    ensures { result.now ≡ number_run bytes.now }
{
    if begins_sign(bytes) {
        let length = unsigned_length(&bytes[1..]);
        &bytes[..1 + length]
    } else {
        let length = unsigned_length(bytes);
        &bytes[..length]
    }
}

fn digits_of(alloc: Global, bytes: &[u8]) -> Result<Text, NoMemory>
    ensures { Makes (digits_of bytes.now) result }
{
    let bytes = bytes.iter().copied().filter(|b| *b != b'.').collect(alloc)?;
    Ok(Text { bytes })
}

fn has_point(bytes: &[u8]) -> bool
    ensures { result ≡ list_any is_point bytes.now }
{
    bytes.iter().any(|b| *b == b'.')
}

fn points(bytes: &[u8]) -> usize
    ensures { result ≡ count_by is_point bytes.now }
{
    bytes.iter().filter(|b| **b == b'.').count()
}

fn are_digits(bytes: &[u8]) -> bool
    ensures { result ≡ list_all is_digit bytes.now }
{
    bytes.iter().all(|b| is_digit(*b))
}

fn are_digits_or_points(bytes: &[u8]) -> bool
    ensures { result ≡ list_all (λ b. is_digit b || is_point b) bytes.now }
{
    bytes.iter().all(|b| is_digit(*b) || *b == b'.')
}

fn is_decimal(bytes: &[u8]) -> bool
    ensures { result ≡ is_decimal bytes.now }
{
    are_digits_or_points(bytes) && points(bytes) <= 1
}

/// How many digits come after the period.
fn scale_of(bytes: &[u8]) -> usize
    ensures { result ≡ length (decimals bytes.now) }
{
    bytes
        .iter()
        .skip_while(|b| **b != b'.')
        .filter(|b| **b != b'.')
        .count()
}

#[tactic(auto, using(crate::proofs::RunLemmas::decimals_within))]
fn decimal_kind(alloc: Global, line: u32, run: &[u8], bytes: &[u8]) -> Result<TokenKind, LexError>
    ensures { Answers Memory (decimal_kind line run.now bytes.now) result }
{
    if !is_decimal(bytes) {
        return Err(LexError::Fault(LexFault::BadNumber(line)));
    }
    let digits = digits_of(alloc, bytes)?;
    if digits.len() > MOST_DIGITS {
        return Err(LexError::Fault(LexFault::TooManyDigits(line)));
    }
    let number = Number {
        negative: matches!(run, [b'-', ..]),
        digits: SpelledDigits::new(digits),
        scale: scale_of(bytes) as u8,
    };
    Ok(TokenKind::Decimal(Boxed::new(alloc, number)?))
}

fn digits_kind(alloc: Global, line: u32, run: &[u8]) -> Result<TokenKind, LexError>
    ensures { Answers Memory (digits_kind line run.now) result }
{
    if run.len() > MOST_DIGITS {
        return Err(LexError::Fault(LexFault::TooManyDigits(line)));
    }
    let bytes = Vec::from_slice(alloc, run)?;
    Ok(TokenKind::Digits(Text { bytes }))
}

/// The token of a run that begins as a number.
pub fn number_kind(alloc: Global, line: u32, run: &[u8]) -> Result<TokenKind, LexError>
    ensures { Answers Memory (number_kind line run.now) result }
{
    if begins_sign(run) || has_point(run) {
        decimal_kind(alloc, line, run, unsigned(run))
    } else if are_digits(run) {
        digits_kind(alloc, line, run)
    } else {
        word_kind(line, run)
    }
}
