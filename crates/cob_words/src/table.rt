//! A table that numbers words.

ghost use Rattle.std.specs.Prelude.{◌≡◌, ◌≢◌, ◌<◌, ◌^◌, [], length, position, AllPairs, slice_get, OnOk, OnErr};
ghost use Rattle.std.specs.Option.{option_copied};
ghost use Rattle.std.specs.Str.{bytes_eq};
ghost use Rattle.cob_base.specs.Answers.{Makes};
ghost use Rattle.cob_words.specs.Table.{number_in, with_word};

use cob_base::{NoMemory, Word};
use indexmap::IndexSet;
use std::alloc::Global;
use std::marker::Model;

/// Words, each with the number of those that were added before it.
///
/// Contracts see a table as the list of its words, in the order of their numbers.
#[derive(Drop)]
pub struct WordTable {
    words: IndexSet<Word>,
}

impl Model for WordTable {
    ghost use Rattle.std.specs.Prelude.{List, ℕ, length, ◌≤◌, ◌^◌};

    ghost Value = { List (List ℕ) };

    ghost view = { λ t. t.words.keys };

    ghost invariant = { λ t. length t.words.keys ≤ 2 ^ 32 };
}

impl WordTable {
    /// A table without words.
    pub fn new(alloc: Global) -> WordTable
        ensures { result ≡ [] }
    {
        WordTable {
            words: IndexSet::new(alloc),
        }
    }

    /// How many words there are. All words are different.
    pub fn len(&self) -> usize
        ensures value { result ≡ length self.now }
        ensures apart { AllPairs (λ a b. a ≢ b) self.now }
    {
        self.words.len()
    }

    /// The number of a word, where the table has it.
    pub fn number_of(&self, word: &Word) -> Option<u32>
        ensures { result ≡ position (bytes_eq word.now) self.now }
    {
        match self.words.get_index_of(word) {
            None => None,
            Some(at) => Some(at as u32),
        }
    }

    /// The word with this number, where there is one.
    pub fn word_of(&self, number: u32) -> Option<&Word>
        ensures { option_copied result ≡ slice_get self.now number }
    {
        self.words.get_index(number as usize)
    }

    /// The number of a word, which is the next one where the table doesn't have it yet.
    ///
    /// At `NoMemory` the table stays.
    pub fn add(&mut self, word: Word) -> Result<u32, NoMemory>
        requires { length self.old < 2 ^ 32 }
        ensures number { Makes (number_in self.old word) result }
        ensures words { OnOk result (self.new ≡ with_word self.old word) }
        ensures err { OnErr result (self.new ≡ self.old) }
    {
        let (at, _) = self.words.insert_full(word)?;
        Ok(at as u32)
    }
}
