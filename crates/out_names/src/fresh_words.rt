//! Words that aren't in a table.

ghost use Rattle.std.specs.Prelude.{◌+◌, ◌<◌, ◌^◌, length, IfOk};
ghost use Rattle.cob_base.specs.Answers.{Makes};
ghost use Rattle.cob_words.specs.numbered.Stem.{IsStem};
ghost use Rattle.out_names.specs.FreshWords.{is_taken, fresh_number, fresh_word, IsFresh};

use cob_base::{NoMemory, Word};
use cob_words::WordTable;
use cob_words::numbered::numbered;
use std::alloc::Global;

/// A word that isn't in a table, and the number that ends it.
#[derive(Clone, Copy, Debug)]
pub struct FreshWord {
    pub word: Word,
    pub number: u32,
}

/// Whether the table has the stem with this number.
#[tactic(auto, using(crate::proofs::FreshLemmas::position_any))]
fn is_taken(alloc: Global, words: &WordTable, stem: &[u8], number: u32) -> Result<bool, NoMemory>
    requires { IsStem stem.now }
    ensures { Makes (is_taken words.now stem.now number) result }
{
    let word = numbered(alloc, stem, number)?;
    Ok(words.number_of(&word).is_some())
}

/// The least number from this one on that makes no word of the table.
fn fresh_number(alloc: Global, words: &WordTable, stem: &[u8], from: u32) -> Result<u32, NoMemory>
    requires stem { IsStem stem.now }
    requires room { from + length words.now < 2 ^ 32 }
    ensures { Makes (fresh_number words.now stem.now from) result }
{
    let end = from + words.len() as u32;
    for number in from..end {
        let taken = is_taken(alloc, words, stem, number)?;
        if !taken {
            return Ok(number);
        }
    }
    Ok(end)
}

/// The stem with the least number from this one on that makes no word of the table.
#[tactic(auto, using(crate::proofs::FreshLemmas::fresh_is_fresh))]
pub fn fresh(
    alloc: Global,
    words: &WordTable,
    stem: &[u8],
    from: u32,
) -> Result<FreshWord, NoMemory>
    requires stem { IsStem stem.now }
    requires room { from + length words.now < 2 ^ 32 }
    ensures value { Makes (fresh_word words.now stem.now from) result }
    ensures new { IfOk result (λ made. IsFresh words.now stem.now from made.number) }
{
    let number = fresh_number(alloc, words, stem, from)?;
    let word = numbered(alloc, stem, number)?;
    Ok(FreshWord { word, number })
}
