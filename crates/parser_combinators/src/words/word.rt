//! Words that a program defines.

ghost use Rattle.std.specs.Prelude.{◌≡◌};
ghost use Rattle.parser_combinators.specs.Form as form;
ghost use Rattle.parser_combinators.specs.Reading.{Reads};
ghost use Rattle.parser_combinators.specs.words.Word as words;

use crate::{Cursor, Position, Unread, Why};
use cob_base::Word;
use cob_words::{left_out, reserved};
use cobol_lex::TokenKind;

fn is_letter(byte: u8) -> bool
    ensures { result ≡ words.is_letter byte }
{
    byte.is_ascii_alphabetic()
}

fn has_letter(word: &Word) -> bool
    ensures { result ≡ words.has_letter word.now }
{
    word.as_slice().iter().any(|byte| is_letter(*byte))
}

#[tactic(auto, unfolding(crate::specs::words::Word::is_free))]
fn is_free(word: &Word) -> bool
    ensures { result ≡ words.is_free word.now }
{
    !reserved(word) && !left_out(word)
}

#[tactic(auto, unfolding(crate::specs::words::Word::is_data_word))]
fn is_data_word(word: &Word) -> bool
    ensures { result ≡ words.is_data_word word.now }
{
    has_letter(word) && is_free(word)
}

/// Whether a word that may name data, a file or a program is next.
pub fn sees_name(cursor: &Cursor<'_>) -> bool
    ensures { result ≡ form.is_next words.is_name cursor.now }
{
    match cursor.peek() {
        Some(TokenKind::Word(word)) => is_data_word(word),
        _ => false,
    }
}

fn sees_user_word(cursor: &Cursor<'_>) -> bool
    ensures { result ≡ form.is_next words.is_user_word cursor.now }
{
    match cursor.peek() {
        Some(TokenKind::Word(word)) => is_free(word),
        _ => false,
    }
}

/// Takes a name of data, a file or a program, and gives it with its position.
#[tactic(auto, unfolding(crate::specs::words::Word::name))]
pub fn name(cursor: &mut Cursor<'_>) -> Result<(Word, Position), Unread>
    ensures { Reads (words.name.reads cursor.old) result cursor.new }
{
    if sees_name(cursor) {
        cursor.word()
    } else {
        Err(Unread::Stop(Why::Syntax))
    }
}

/// Takes a word that isn't reserved, and gives it with its position.
#[tactic(auto, unfolding(crate::specs::words::Word::user_word))]
pub fn user_word(cursor: &mut Cursor<'_>) -> Result<(Word, Position), Unread>
    ensures { Reads (words.user_word.reads cursor.old) result cursor.new }
{
    if sees_user_word(cursor) {
        cursor.word()
    } else {
        Err(Unread::Stop(Why::Syntax))
    }
}
