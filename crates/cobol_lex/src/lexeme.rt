//! The token that begins a text.

ghost use Rattle.std.specs.Prelude.{◌≡◌, ◌<◌, ◌≤◌, length, IfOk};
ghost use Rattle.cob_base.specs.Answers.{Answers};
ghost use Rattle.cobol_lex.specs.declared.fault.LexError.TheVariants.{NoMemory as Memory};
ghost use Rattle.cobol_lex.specs.Lexeme.{lexeme_of, mark_lexeme, plain_lexeme, next_lexeme};

use crate::awaits::{Awaits, awaits_picture};
use crate::byte::{is_letter, is_mark, is_quote};
use crate::fault::{LexError, LexFault};
use crate::literal::literal_lexeme;
use crate::number::{begins_number, number_kind, number_run};
use crate::picture::{picture_lexeme, picture_run};
use crate::token::TokenKind;
use crate::word::{word_kind, word_run};
use std::alloc::Global;

/// What a token is, and how many bytes of the text it takes.
#[derive(Debug, Drop)]
pub struct Lexeme {
    pub kind: TokenKind,
    pub length: usize,
}

/// A period, a mark or a pair of marks.
fn mark_lexeme(line: u32, b: u8, rest: &[u8]) -> Result<Lexeme, LexError>
    ensures { result ≡ mark_lexeme line b rest.now }
{
    let (kind, length) = match (b, rest) {
        (b'.', _) => (TokenKind::Period, 1),
        (b'*', [b'*', ..]) => (TokenKind::Power, 2),
        (b'<', [b'=', ..]) => (TokenKind::LessEqual, 2),
        (b'>', [b'=', ..]) => (TokenKind::GreaterEqual, 2),
        _ if is_mark(b) => (TokenKind::Mark(b), 1),
        _ => return Err(LexError::Fault(LexFault::BadWord(line))),
    };
    Ok(Lexeme { kind, length })
}

fn lexeme_of(length: usize, kind: Result<TokenKind, LexError>) -> Result<Lexeme, LexError>
    ensures { result ≡ lexeme_of length kind }
{
    match kind {
        Ok(kind) => Ok(Lexeme { kind, length }),
        Err(fault) => Err(fault),
    }
}

fn plain_lexeme(alloc: Global, before: u8, line: u32, bytes: &[u8]) -> Result<Lexeme, LexError>
    ensures { Answers Memory (plain_lexeme before line bytes.now) result }
{
    let [b, rest @ ..] = bytes else {
        return Err(LexError::Fault(LexFault::BadWord(line)));
    };
    if is_quote(*b) {
        literal_lexeme(alloc, line, bytes)
    } else if begins_number(before, bytes) {
        let run = number_run(bytes);
        lexeme_of(run.len(), number_kind(alloc, line, run))
    } else if is_letter(*b) {
        let run = word_run(bytes);
        lexeme_of(run.len(), word_kind(line, run))
    } else {
        mark_lexeme(line, *b, rest)
    }
}

/// The token that begins the text, after the byte and the tokens that come before it.
pub fn next_lexeme(
    alloc: Global,
    awaits: Awaits,
    before: u8,
    line: u32,
    bytes: &[u8],
) -> Result<Lexeme, LexError>
    ensures value { Answers Memory (next_lexeme awaits before line bytes.now) result }
    ensures within { IfOk result
        (λ lexeme. (0 < lexeme.length) × (lexeme.length ≤ length bytes.now)) }
{
    if awaits_picture(awaits, bytes) {
        picture_lexeme(alloc, line, picture_run(bytes))
    } else {
        plain_lexeme(alloc, before, line, bytes)
    }
}
