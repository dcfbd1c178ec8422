//! Names in headers.

ghost use Rattle.std.specs.Prelude.{◌≡◌, true, Some};
ghost use Rattle.parser_combinators.specs.words.Word.{is_free};
ghost use Rattle.symbol_tables.specs.procedure_names.Procedures as procedures;

use cob_base::Word;
use cob_words::{left_out, reserved};
use cobol_lex::TokenKind;

#[tactic(auto, unfolding(parser_combinators::specs::words::Word::is_free))]
fn is_free(word: &Word) -> bool
    ensures { result ≡ is_free word.now }
{
    !reserved(word) && !left_out(word)
}

fn is_short(bytes: usize) -> bool
    ensures { result ≡ procedures.is_short bytes }
{
    0 < bytes && bytes <= 30
}

fn are_digits(digits: &[u8]) -> bool
    ensures { result ≡ procedures.are_digits digits.now }
{
    digits.iter().all(|b| 48 <= *b && *b <= 57)
}

fn is_number(digits: &[u8]) -> bool
    ensures { result ≡ procedures.is_number digits.now }
{
    is_short(digits.len()) && are_digits(digits)
}

fn number_word(digits: &[u8]) -> Option<Word>
    requires { procedures.is_number digits.now ≡ true }
    ensures { result ≡ Some digits.now }
{
    Word::new(digits)
}

/// The name that a header may have: a word that isn't reserved, or digits.
#[tactic(auto, unfolding(crate::specs::procedure_names::Procedures::header_name))]
pub fn header_name(kind: &TokenKind) -> Option<Word>
    ensures { result ≡ procedures.header_name kind.now }
{
    match kind {
        TokenKind::Word(word) => { if is_free(word) { Some(*word) } else { None } }
        TokenKind::Digits(digits) => {
            let digits = digits.as_slice();
            if is_number(digits) {
                number_word(digits)
            } else {
                None
            }
        }
        _ => None,
    }
}
