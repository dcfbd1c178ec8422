//! Lines that are dropped: comments, blank lines and comment entries.

ghost use Rattle.std.specs.Prelude.{◌≡◌, ◌||◌, ◌&&◌, not, map};
ghost use Rattle.ref_format.specs.Entry.{is_comment, is_division, is_comment_header, is_without_text};
ghost use Rattle.ref_format.specs.Entry.{entry_goes_on as goes_on_over, begins_one, starts_one as starts_any, starts_folded as starts};

use crate::column::{behind_spaces, blank};

/// After one of these no comment entry begins.
const DIVISION_HEADERS: [&str; 3] = ["ENVIRONMENT ", "DATA ", "PROCEDURE "];

/// What begins a comment entry (ISO 1989:1985, Identification Division).
const COMMENT_HEADERS: [&str; 6] = [
    "AUTHOR.",
    "INSTALLATION.",
    "DATE-WRITTEN.",
    "DATE-COMPILED.",
    "SECURITY.",
    "REMARKS.",
];

/// How far the lines so far have come in the comment entries.
#[derive(Clone, Copy)]
pub struct Entries {
    /// Whether one of these division headers came before, so that no entry begins any more.
    pub over: bool,
    /// Whether the last line belongs to an entry.
    pub inside: bool,
}

impl Entries {
    /// Takes the next line, and says whether it is dropped.
    pub fn drops(&mut self, card: &[u8; 72]) -> bool
        ensures over { self.new.over ≡ (is_division card.now || self.old.over) }
        ensures inside { self.new.inside
            ≡ ((is_comment_header card.now && not self.old.over)
            || (goes_on_over card.now && self.old.inside)) }
        ensures answer { result ≡ (is_without_text card.now || self.new.inside) }
    {
        self.inside = self.begins(card) || self.goes_on(card);
        self.over = self.over || division_header(card);
        self.inside || without_text(card)
    }

    fn begins(&self, card: &[u8; 72]) -> bool
        ensures { result ≡ (is_comment_header card.now && not self.now.over) }
    {
        !self.over && comment_header(card)
    }

    fn goes_on(&self, card: &[u8; 72]) -> bool
        ensures { result ≡ (goes_on_over card.now && self.now.inside) }
    {
        self.inside && entry_goes_on(card)
    }
}

fn without_text(card: &[u8; 72]) -> bool
    ensures { result ≡ is_without_text card.now }
{
    comment_line(card) || blank(&card[6..])
}

fn entry_goes_on(card: &[u8; 72]) -> bool
    ensures { result ≡ goes_on_over card.now }
{
    comment_line(card) || blank(&card[7..11])
}

fn comment_line(card: &[u8; 72]) -> bool
    ensures { result ≡ is_comment card.now }
{
    matches!(card[6], b'*' | b'/' | b'D' | b'd')
}

fn division_header(card: &[u8; 72]) -> bool
    ensures { result ≡ is_division card.now }
{
    card[6] == b' ' && begins(&DIVISION_HEADERS, card)
}

fn comment_header(card: &[u8; 72]) -> bool
    ensures { result ≡ is_comment_header card.now }
{
    card[6] == b' ' && begins(&COMMENT_HEADERS, card)
}

/// Whether the first byte that isn't a space is in columns 8 to 11, and one of the words, which are
/// in capitals, begins there.
fn begins(words: &[&str], card: &[u8; 72]) -> bool
    ensures { result ≡ begins_one (map (λ w. w.now) words.now) card.now }
{
    !blank(&card[7..11]) && starts_one(words, behind_spaces(&card[7..]))
}

fn starts_one(words: &[&str], text: &[u8]) -> bool
    ensures { result ≡ starts_any (map (λ w. w.now) words.now) text.now }
{
    for word in words {
        if starts_folded(word.as_bytes(), text) {
            return true;
        }
    }
    false
}

fn starts_folded(word: &[u8], text: &[u8]) -> bool
    ensures { result ≡ starts word.now text.now }
{
    let mut text = text;
    let mut word = word;
    while let [capital, word_rest @ ..] = word {
        match text {
            [byte, text_rest @ ..] if byte.to_ascii_uppercase() == *capital => {
                text = text_rest;
                word = word_rest;
            }
            _ => return false,
        }
    }
    true
}
