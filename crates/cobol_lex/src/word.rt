//! Words.

ghost use Rattle.std.specs.Prelude.{◌≡◌, ◌≤◌, codes, length};
ghost use Rattle.cobol_lex.specs.Word.{word_run, word_kind, spells};

use crate::byte::is_word_byte;
use crate::fault::{LexError, LexFault};
use crate::lanes::word_byte_run;
use crate::token::TokenKind;
use cob_base::Word;

fn word_length(bytes: &[u8]) -> usize
    ensures { result ≡ length (word_run bytes.now) }
{
    let mut at = 0;
    while bytes.len() - at >= 16 {
        let run = word_byte_run(&bytes[at..]);
        at += run;
        if run < 16 {
            return at;
        }
    }
    at + short_length(&bytes[at..])
}

#[tactic(auto, using(crate::proofs::RunLemmas::run_within))]
fn short_length(bytes: &[u8]) -> usize
    ensures value { result ≡ length (word_run bytes.now) }
    ensures within { result ≤ length bytes.now }
{
    bytes.iter().take_while(|b| is_word_byte(**b)).count()
}

/// The letters, digits and hyphens at the front.
#[tactic(auto, using(crate::proofs::RunLemmas::run_at_front, crate::proofs::RunLemmas::run_within))]
pub fn word_run(bytes: &[u8]) -> &[u8]
    ensures { result.now ≡ word_run bytes.now }
{
    &bytes[..word_length(bytes)]
}

/// The token of a run that begins as a word.
pub fn word_kind(line: u32, run: &[u8]) -> Result<TokenKind, LexError>
    ensures { result ≡ word_kind line run.now }
{
    match Word::new(run) {
        None => Err(LexError::Fault(LexFault::BadWord(line))),
        Some(word) => Ok(TokenKind::Word(word)),
    }
}

/// Whether the run is the word IS, in either case.
pub fn is_is(run: &[u8]) -> bool
    ensures { result ≡ spells (codes "IS") run.now }
{
    match run {
        [first, second] => {
            first.to_ascii_uppercase() == b'I' && second.to_ascii_uppercase() == b'S'
        }
        _ => false,
    }
}
