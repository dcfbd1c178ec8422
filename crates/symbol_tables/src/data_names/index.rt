//! From words to the numbers of the entries that they name, or may qualify.

ghost use Rattle.std.specs.Prelude.{◌≡◌, ◌++◌, ◌∷◌, [], List, ℕ, cond, length, nat_lt, OnOk, if◌then◌else◌};
ghost use Rattle.std.specs.List.{list_any};
ghost use Rattle.std.specs.Str.{bytes_eq};
ghost use Rattle.indexmap.specs.IndexMap.{get};
ghost use Rattle.symbol_tables.specs.declared.data_names.name.Name.{Name};
ghost use Rattle.symbol_tables.specs.data_names.Index.{find_among, numbers_in, places_of, places_within};
ghost use Rattle.symbol_tables.specs.data_names.Look.{find};

use cob_base::{Items, NoMemory, Word};
use indexmap::IndexMap;
use std::alloc::Global;

/// For each word the numbers that were added with it, in their order.
pub type WordIndex = IndexMap<Word, Items<u32>>;

/// The numbers that were added with this word.
pub fn numbers_of<'a>(index: &'a WordIndex, word: &Word) -> &'a [u32]
    ensures { result.now ≡ numbers_in index.now word.now }
{
    match index.get(word) {
        None => &[],
        Some(numbers) => numbers.as_slice(),
    }
}

// Takes the numbers of a word out of the index.
fn take_numbers(alloc: Global, index: &mut WordIndex, word: &Word) -> Items<u32>
    ensures value { result ≡ numbers_in index.old word.now }
    ensures others { (q : List ℕ) → get bytes_eq index.new q
        ≡ cond (bytes_eq word.now q) None (get bytes_eq index.old q) }
{
    match index.swap_remove(word) {
        None => Items::new(alloc),
        Some(found) => found,
    }
}

/// Adds a number to those of a word.
pub fn add_number(
    alloc: Global,
    index: &mut WordIndex,
    word: Word,
    number: u32,
) -> Result<(), NoMemory>
    ensures { OnOk result ((other : List ℕ) → numbers_in index.new other
        ≡ (if bytes_eq word other then numbers_in index.old other ++ number ∷ []
        else numbers_in index.old other)) }
{
    let mut numbers = take_numbers(alloc, index, &word);
    numbers.push(number)?;
    index.insert(word, numbers)?;
    Ok(())
}

fn is_among(word: &Word, words: &[Word]) -> bool
    ensures { result ≡ list_any (bytes_eq word.now) words.now }
{
    words.iter().any(|other| *word == *other)
}

// Adds a number to those of a word that isn't among these.
fn add_new(
    alloc: Global,
    index: &mut WordIndex,
    seen: &[Word],
    word: &Word,
    number: u32,
) -> Result<(), NoMemory>
    ensures { OnOk result ((other : List ℕ) → numbers_in index.new other
        ≡ (if list_any (bytes_eq word.now) seen.now then numbers_in index.old other
        else (if bytes_eq word.now other then numbers_in index.old other ++ number ∷ []
        else numbers_in index.old other))) }
{
    if is_among(word, seen) {
        Ok(())
    } else {
        add_number(alloc, index, *word, number)
    }
}

/// Adds a number to those of each of these words, once to each.
pub fn add_to_each(
    alloc: Global,
    index: &mut WordIndex,
    words: &[Word],
    number: u32,
) -> Result<(), NoMemory>
    ensures { OnOk result ((other : List ℕ) → numbers_in index.new other
        ≡ numbers_in index.old other
        ++ (if list_any (bytes_eq other) words.now then number ∷ [] else [])) }
{
    for (at, word) in words.iter().enumerate() {
        add_new(alloc, index, &words[..at], word, number)?;
    }
    Ok(())
}

fn fewer<'a>(numbers: &'a [u32], others: &'a [u32]) -> &'a [u32]
    ensures { result.now ≡ (if nat_lt (length others.now) (length numbers.now) then others.now
        else numbers.now) }
{
    if others.len() < numbers.len() {
        others
    } else {
        numbers
    }
}

/// The numbers of the entries that are tried for a reference: those that its word names or that one
/// of its qualifiers may qualify, whichever are fewest.
pub fn numbers_for<'a>(
    index: &'a WordIndex,
    within: &'a WordIndex,
    word: &Word,
    of: &[Word],
) -> &'a [u32]
    ensures { (names : List Name)
        → ((other : List ℕ) → numbers_in index.now other ≡ places_of other names)
        → ((other : List ℕ) → numbers_in within.now other ≡ places_within other names)
        → find_among names word.now of.now result.now ≡ find names word.now of.now }
{
    let mut numbers = numbers_of(index, word);
    for group in of {
        numbers = fewer(numbers, numbers_of(within, group));
    }
    numbers
}
