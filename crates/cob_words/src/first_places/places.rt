//! A list of words with the first place of each.

ghost use Rattle.std.specs.Prelude.{◌≡◌, ◌<◌, List, ℕ, Some, cond, length, position, take, IfOk, IfSome, OnOk};
ghost use Rattle.std.specs.List.{list_any};
ghost use Rattle.std.specs.Str.{bytes_eq};
ghost use Rattle.indexmap.specs.IndexMap.{get};
ghost use Rattle.cob_base.specs.Answers.{Makes};

use cob_base::{Items, NoMemory, Word};
use indexmap::IndexMap;
use std::alloc::Global;
use std::marker::Model;

/// Words, each with its first place.
///
/// Contracts see the list of the words.
#[derive(Drop)]
pub struct WordPlaces {
    words: Items<Word>,
    /// The first place of each word.
    firsts: IndexMap<Word, usize>,
}

impl Model for WordPlaces {
    ghost use Rattle.std.specs.Prelude.{◌≡◌, List, ℕ, position};
    ghost use Rattle.std.specs.Str.{bytes_eq};
    ghost use Rattle.indexmap.specs.IndexMap.{get};

    ghost Value = { List (List ℕ) };

    ghost view = { λ t. t.words };

    ghost invariant = { λ t. (word : List ℕ) → get bytes_eq t.firsts word
        ≡ position (bytes_eq word) t.words };
}

impl WordPlaces {
    /// A table of these words.
    pub fn of(alloc: Global, words: Items<Word>) -> Result<WordPlaces, NoMemory>
        ensures { Makes words result }
    {
        let firsts = firsts_of(alloc, words.as_slice())?;
        Ok(WordPlaces { words, firsts })
    }

    /// How many there are; a word that is there twice counts twice.
    pub fn len(&self) -> usize
        ensures { result ≡ length self.now }
    {
        self.words.len()
    }

    /// The first place of a word.
    pub fn first(&self, word: &Word) -> Option<usize>
        ensures value { result ≡ position (bytes_eq word.now) self.now }
        ensures within { IfSome result (λ at. at < length self.now) }
    {
        match self.firsts.get(word) {
            None => None,
            Some(at) => Some(*at),
        }
    }

    /// Whether a word is one of them.
    pub fn has(&self, word: &Word) -> bool
        ensures { result ≡ list_any (bytes_eq word.now) self.now }
    {
        self.first(word).is_some()
    }

    /// Whether a word comes before a place.
    pub fn has_before(&self, word: &Word, at: usize) -> bool
        ensures { result ≡ list_any (bytes_eq word.now) (take at self.now) }
    {
        match self.first(word) {
            None => false,
            Some(place) => place < at,
        }
    }
}

fn put(firsts: &mut IndexMap<Word, usize>, word: Word, at: usize) -> Result<(), NoMemory>
    ensures { OnOk result ((other : List ℕ) → get bytes_eq firsts.new other
        ≡ cond (bytes_eq word other) (Some at) (get bytes_eq firsts.old other)) }
{
    firsts.insert(word, at)?;
    Ok(())
}

// The words are taken from the last to the first, so that a word's first place stays.
fn firsts_of(alloc: Global, words: &[Word]) -> Result<IndexMap<Word, usize>, NoMemory>
    ensures { IfOk result (λ firsts. (word : List ℕ) → get bytes_eq firsts word
        ≡ position (bytes_eq word) words.now) }
{
    let mut firsts = IndexMap::new(alloc);
    let mut at = words.len();
    while at > 0 {
        at -= 1;
        put(&mut firsts, words[at], at)?;
    }
    Ok(firsts)
}
