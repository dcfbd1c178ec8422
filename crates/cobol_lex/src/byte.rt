//! Kinds of bytes.

ghost use Rattle.std.specs.Prelude.{◌≡◌};
ghost use Rattle.cob_base.specs.Spelling.{word_byte};
ghost use Rattle.cobol_lex.specs.Byte.{is_digit, is_letter, is_mark, is_quote, is_separator, is_sign};
ghost use Rattle.cobol_lex.specs.Byte.{is_white, leads_sign, begins};

/// Whether the byte is a letter, in either case.
pub fn is_letter(b: u8) -> bool
    ensures { result ≡ is_letter b }
{
    b.is_ascii_alphabetic()
}

/// Whether the byte is a digit.
pub fn is_digit(b: u8) -> bool
    ensures { result ≡ is_digit b }
{
    b.is_ascii_digit()
}

/// Whether the byte is a letter, a digit or a hyphen.
pub fn is_word_byte(b: u8) -> bool
    ensures { result ≡ word_byte b }
{
    b.is_ascii_alphabetic() || b.is_ascii_digit() || b == b'-'
}

/// Whether the byte is a space or LF.
pub fn is_white(b: u8) -> bool
    ensures { result ≡ is_white b }
{
    b == b' ' || b == b'\n'
}

/// Whether the byte is a space, LF, comma or semicolon.
pub fn is_separator(b: u8) -> bool
    ensures { result ≡ is_separator b }
{
    is_white(b) || b == b',' || b == b';'
}

/// Whether a sign after the byte begins a number.
pub fn leads_sign(b: u8) -> bool
    ensures { result ≡ leads_sign b }
{
    is_separator(b) || b == b'(' || b == b':'
}

/// Whether the byte is `+` or `-`.
pub fn is_sign(b: u8) -> bool
    ensures { result ≡ is_sign b }
{
    b == b'+' || b == b'-'
}

/// Whether the byte is a quotation mark or an apostrophe.
pub fn is_quote(b: u8) -> bool
    ensures { result ≡ is_quote b }
{
    b == b'"' || b == b'\''
}

/// Whether the byte is one of `+ - * / = < > ( ) :`.
pub fn is_mark(b: u8) -> bool
    ensures { result ≡ is_mark b }
{
    is_sign(b)
        || b == b'*'
        || b == b'/'
        || b == b'='
        || b == b'<'
        || b == b'>'
        || b == b'('
        || b == b')'
        || b == b':'
}

/// Whether the bytes begin with a digit.
pub fn begins_digit(bytes: &[u8]) -> bool
    ensures { result ≡ begins is_digit bytes.now }
{
    match bytes {
        [] => false,
        [b, ..] => is_digit(*b),
    }
}

/// Whether the bytes begin with a sign.
pub fn begins_sign(bytes: &[u8]) -> bool
    ensures { result ≡ begins is_sign bytes.now }
{
    match bytes {
        [] => false,
        [b, ..] => is_sign(*b),
    }
}
