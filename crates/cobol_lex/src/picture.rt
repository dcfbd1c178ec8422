//! Pictures.

ghost use Rattle.std.specs.Prelude.{◌≡◌, length};
ghost use Rattle.cob_base.specs.Answers.{Answers};
ghost use Rattle.cobol_lex.specs.declared.fault.LexError.TheVariants.{NoMemory as Memory};
ghost use Rattle.cobol_lex.specs.Picture.{ends_picture, filled_run, picture_run, picture_lexeme};

use crate::byte::is_white;
use crate::fault::{LexError, LexFault};
use crate::lexeme::Lexeme;
use crate::token::TokenKind;
use cob_base::Text;
use std::alloc::Global;

fn ends_picture(b: u8) -> bool
    ensures { result ≡ ends_picture b }
{
    b == b'.' || b == b',' || b == b';'
}

fn filled_length(bytes: &[u8]) -> usize
    ensures { result ≡ length (filled_run bytes.now) }
{
    bytes.iter().take_while(|b| !is_white(**b)).count()
}

/// The bytes up to a space or LF.
#[tactic(auto, using(crate::proofs::RunLemmas::run_at_front, crate::proofs::RunLemmas::run_within))]
fn filled_run(bytes: &[u8]) -> &[u8]
    ensures { result.now ≡ filled_run bytes.now }
{
    &bytes[..filled_length(bytes)]
}

/// The bytes of the picture that begins here.
pub fn picture_run(bytes: &[u8]) -> &[u8]
    ensures { result.now ≡ picture_run bytes.now }
{
    let run = filled_run(bytes);
    match run {
        [front @ .., last] if ends_picture(*last) => front,
        _ => run,
    }
}

/// The token of a run that is read as a picture.
pub fn picture_lexeme(alloc: Global, line: u32, run: &[u8]) -> Result<Lexeme, LexError>
    ensures { Answers Memory (picture_lexeme line run.now) result }
{
    if run.is_empty() {
        return Err(LexError::Fault(LexFault::BadWord(line)));
    }
    let bytes = Vec::from_slice(alloc, run)?;
    Ok(Lexeme {
        kind: TokenKind::Picture(Text { bytes }),
        length: run.len(),
    })
}
