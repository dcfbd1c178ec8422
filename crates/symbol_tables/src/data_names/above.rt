//! The groups above an entry.

ghost use Rattle.std.specs.Prelude.{◌≡◌, ◌++◌, ◌<◌, ◌≤◌, ◌^◌, IfOk, OnOk, length};
ghost use Rattle.symbol_tables.specs.data_names.Grouping.{dims_in, group_words, word_list};
ghost use Rattle.symbol_tables.specs.data_names.Nesting.{count_to, groups_from, nestings_of};

use crate::data_names::grouping::repeats;
use crate::data_names::nesting::{Nesting, nesting_at};
use cob_base::{Items, NoMemory, Word};
use cob_tree::Entry;
use std::alloc::Global;

/// The names of the groups above an entry, the nearest first, and how many of these groups repeat.
#[derive(Debug, Drop)]
pub struct Above {
    pub words: Items<Word>,
    pub dims: usize,
}

fn add_word(words: &mut Items<Word>, word: Option<Word>) -> Result<(), NoMemory>
    ensures { OnOk result (words.new ≡ words.old ++ word_list word) }
{
    match word {
        None => Ok(()),
        Some(word) => words.push(word),
    }
}

/// The groups above an entry that is in this one.
pub fn groups_above(
    alloc: Global,
    entries: &[Entry],
    nestings: &[Nesting],
    holder: Option<usize>,
) -> Result<Above, NoMemory>
    requires short { length entries.now < 2 ^ 31 }
    requires table { nestings.now ≡ nestings_of entries.now }
    requires within { count_to holder ≤ length entries.now }
    ensures words { IfOk result (λ a. a.words ≡ group_words (groups_from entries.now holder)) }
    ensures dims { IfOk result (λ a. a.dims ≡ dims_in (groups_from entries.now holder)) }
    ensures few { IfOk result (λ a. a.dims ≤ length entries.now) }
{
    let mut words = Items::new(alloc);
    let mut dims = 0usize;
    let mut next = holder;
    while let Some(number) = next {
        let entry = &entries[number];
        add_word(&mut words, entry.name)?;
        dims += usize::from(repeats(entry));
        next = nesting_at(nestings, number).holder;
    }
    Ok(Above { words, dims })
}
