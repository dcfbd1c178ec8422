//! Which tokens begin relation signs and tests.

ghost use Rattle.std.specs.Prelude.{◌≡◌};
ghost use Rattle.std.specs.Str.{bytes_eq};
ghost use Rattle.parser_combinators.specs.Form as form;
ghost use Rattle.parser_combinators.specs.Reading.{Reads};
ghost use Rattle.cobol_grammar.specs.cond_forms.Token as tokens;

use cob_base::Word;
use cob_tree::{ClassKind, Rel, SignKind};
use cobol_lex::TokenKind;
use parser_combinators::{Cursor, Unread, Why};

fn rel_of_byte(byte: u8) -> Option<Rel>
    ensures { result ≡ tokens.rel_of_byte byte }
{
    match byte {
        b'=' => Some(Rel::Equal),
        b'>' => Some(Rel::Greater),
        b'<' => Some(Rel::Less),
        _ => None,
    }
}

fn at_rel_word(cursor: &Cursor<'_>) -> bool
    ensures { result ≡ form.is_next tokens.is_rel_word cursor.now }
{
    cursor.sees(b"EQUAL") || cursor.sees(b"GREATER") || cursor.sees(b"LESS")
}

/// Whether a relation sign that NOT may precede is next.
#[tactic(auto, unfolding(cobol_grammar::specs::cond_forms::Token::begins_plain_rel))]
pub fn at_plain_rel(cursor: &Cursor<'_>) -> bool
    ensures { result ≡ form.is_next tokens.begins_plain_rel cursor.now }
{
    match cursor.peek() {
        Some(TokenKind::Mark(b)) => rel_of_byte(*b).is_some(),
        _ => at_rel_word(cursor),
    }
}

/// Whether a relation sign is next.
#[tactic(auto, unfolding(cobol_grammar::specs::cond_forms::Token::begins_rel))]
pub fn at_rel(cursor: &Cursor<'_>) -> bool
    ensures { result ≡ form.is_next tokens.begins_rel cursor.now }
{
    match cursor.peek() {
        Some(TokenKind::Mark(b)) => rel_of_byte(*b).is_some(),
        Some(TokenKind::LessEqual) | Some(TokenKind::GreaterEqual) => true,
        _ => at_rel_word(cursor),
    }
}

/// Whether a relation sign is next that may come after NOT, where `negated` says so.
#[tactic(auto, unfolding(cobol_grammar::specs::cond_forms::Token::begins_rel_behind))]
pub fn at_rel_behind(cursor: &Cursor<'_>, negated: bool) -> bool
    ensures { result ≡ form.is_next (tokens.begins_rel_behind negated) cursor.now }
{
    if negated {
        at_plain_rel(cursor)
    } else {
        at_rel(cursor)
    }
}

/// Takes a relation sign that isn't a word.
pub fn rel_token(cursor: &mut Cursor<'_>) -> Result<Rel, Unread>
    ensures { Reads ((form.one (λ position kind. tokens.rel_of kind)).reads cursor.old)
        result cursor.new }
{
    let rel = match cursor.peek() {
        Some(TokenKind::Mark(b)) => rel_of_byte(*b),
        Some(TokenKind::LessEqual) => Some(Rel::LessEqual),
        Some(TokenKind::GreaterEqual) => Some(Rel::GreaterEqual),
        _ => None,
    };
    match rel {
        None => Err(Unread::Stop(Why::Syntax)),
        Some(rel) => {
            cursor.skip();
            Ok(rel)
        }
    }
}

fn spells(word: &Word, bytes: &[u8]) -> bool
    ensures { result ≡ bytes_eq word.now bytes.now }
{
    word.as_slice() == bytes
}

fn sign_of_word(word: &Word) -> Option<SignKind>
    ensures { result ≡ tokens.sign_of_word word.now }
{
    if spells(word, b"POSITIVE") {
        Some(SignKind::Positive)
    } else if spells(word, b"NEGATIVE") {
        Some(SignKind::Negative)
    } else if spells(word, b"ZERO") {
        Some(SignKind::Zero)
    } else {
        None
    }
}

/// Whether the word of a sign test is next.
#[tactic(auto, unfolding(cobol_grammar::specs::cond_forms::Token::begins_sign))]
pub fn at_sign(cursor: &Cursor<'_>) -> bool
    ensures { result ≡ form.is_next tokens.begins_sign cursor.now }
{
    match cursor.peek() {
        Some(TokenKind::Word(word)) => sign_of_word(word).is_some(),
        _ => false,
    }
}

/// Takes the word of a sign test.
pub fn sign_word(cursor: &mut Cursor<'_>) -> Result<SignKind, Unread>
    ensures { Reads ((form.one (λ position kind. tokens.sign_of kind)).reads cursor.old)
        result cursor.new }
{
    let sign = match cursor.peek() {
        Some(TokenKind::Word(word)) => sign_of_word(word),
        _ => None,
    };
    match sign {
        None => Err(Unread::Stop(Why::Syntax)),
        Some(sign) => {
            cursor.skip();
            Ok(sign)
        }
    }
}

fn class_of_word(word: &Word) -> Option<ClassKind>
    ensures { result ≡ tokens.class_of_word word.now }
{
    if spells(word, b"NUMERIC") {
        Some(ClassKind::Numeric)
    } else if spells(word, b"ALPHABETIC") {
        Some(ClassKind::Alphabetic)
    } else {
        None
    }
}

/// Whether the word of a class test is next.
#[tactic(auto, unfolding(cobol_grammar::specs::cond_forms::Token::begins_class))]
pub fn at_class(cursor: &Cursor<'_>) -> bool
    ensures { result ≡ form.is_next tokens.begins_class cursor.now }
{
    match cursor.peek() {
        Some(TokenKind::Word(word)) => class_of_word(word).is_some(),
        _ => false,
    }
}

/// Takes the word of a class test.
pub fn class_word(cursor: &mut Cursor<'_>) -> Result<ClassKind, Unread>
    ensures { Reads ((form.one (λ position kind. tokens.class_of kind)).reads cursor.old)
        result cursor.new }
{
    let class = match cursor.peek() {
        Some(TokenKind::Word(word)) => class_of_word(word),
        _ => None,
    };
    match class {
        None => Err(Unread::Stop(Why::Syntax)),
        Some(class) => {
            cursor.skip();
            Ok(class)
        }
    }
}

/// Whether AND or OR is next.
#[tactic(auto, unfolding(cobol_grammar::specs::cond_forms::Token::joins))]
pub fn at_join(cursor: &Cursor<'_>) -> bool
    ensures { result ≡ form.is_next tokens.joins cursor.now }
{
    cursor.sees(b"AND") || cursor.sees(b"OR")
}
