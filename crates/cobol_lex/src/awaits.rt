//! What the tokens before say about the next one.

ghost use Rattle.std.specs.Prelude.{◌≡◌};
ghost use Rattle.cobol_lex.specs.Awaits.{awaits_picture, awaits_behind};

use crate::token::TokenKind;
use crate::word::{is_is, word_run};

/// What the next token may be.
#[derive(Clone, Copy, Debug, PartialEq, Eq)]
pub enum Awaits {
    Any,
    /// After PIC or PICTURE.
    PictureOrIs,
    /// After the word IS that follows PIC or PICTURE.
    Picture,
}

/// Whether the next token is a picture, where it begins with these bytes.
pub fn awaits_picture(awaits: Awaits, bytes: &[u8]) -> bool
    ensures { result ≡ awaits_picture awaits bytes.now }
{
    match awaits {
        Awaits::Any => false,
        Awaits::PictureOrIs => !is_is(word_run(bytes)),
        Awaits::Picture => true,
    }
}

/// What may come after a token.
pub fn awaits_behind(awaits: Awaits, kind: &TokenKind) -> Awaits
    ensures { result ≡ awaits_behind awaits kind.now }
{
    match kind {
        TokenKind::Word(word) => match awaits {
            Awaits::PictureOrIs => Awaits::Picture,
            _ if word.as_slice() == b"PIC".as_slice() || word.as_slice() == b"PICTURE".as_slice() =>
                Awaits::PictureOrIs,
            _ => Awaits::Any,
        },
        _ => Awaits::Any,
    }
}
