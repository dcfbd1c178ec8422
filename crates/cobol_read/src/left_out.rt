//! Words that are left out.

ghost use Rattle.std.specs.Prelude.{◌≡◌};
ghost use Rattle.cobol_read.specs.LeftOut as words;

use crate::refusal::ReadFault;
use cob_base::Word;
use cob_words::left_out;
use cobol_lex::{Token, TokenKind};

fn word_refusal(word: &Word, line: u32) -> Option<ReadFault>
    ensures { result ≡ words.word_refusal word.now line }
{
    if left_out(word) {
        Some(ReadFault::LeftOut(*word, line))
    } else {
        None
    }
}

fn token_refusal(token: &Token) -> Option<ReadFault>
    ensures { result ≡ words.token_refusal token.now }
{
    match &token.kind {
        TokenKind::Word(word) => word_refusal(word, token.line),
        TokenKind::Power => Some(ReadFault::Power(token.line)),
        _ => None,
    }
}

/// Why the first refused token of these is refused; none where none is.
#[tactic(auto, unfolding(crate::specs::LeftOut::first_left_out))]
pub fn first_left_out(tokens: &[Token]) -> Option<ReadFault>
    ensures { result ≡ words.first_left_out tokens.now }
{
    let mut rest = tokens;
    'tokens: while let [token, behind @ ..] = rest {
        let refusal = token_refusal(token);
        if refusal.is_some() {
            return refusal;
        }
        rest = behind;
    }
    None
}
