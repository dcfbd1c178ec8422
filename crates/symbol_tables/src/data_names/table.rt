//! The table of the names of a program.

ghost use Rattle.std.specs.Prelude.{◌≡◌, ◌++◌, ◌<◌, ◌^◌, ◌∷◌, ◌+◌, ◌==◌, [], List, ℕ};
ghost use Rattle.std.specs.Prelude.{get_or, take, drop, length, map, reverse, slice_get, IfOk, OnOk, if◌then◌else◌};
ghost use Rattle.std.specs.Option.{option_copied};
ghost use Rattle.cob_base.specs.Answers.{Makes};
ghost use Rattle.symbol_tables.specs.data_names.Index.{and_item, find_among, numbers_in, places_of, places_within, tally};
ghost use Rattle.symbol_tables.specs.data_names.Look as look;
ghost use Rattle.symbol_tables.specs.data_names.Names as names;
ghost use Rattle.symbol_tables.specs.data_names.Nesting as nested;
ghost use Rattle.symbol_tables.specs.declared.data_names.name.ItemKind.TheVariants.{Condition, Group};

use crate::data_names::above::groups_above;
use crate::data_names::grouping::{has_items, is_numbered, repeats};
use crate::data_names::index::{WordIndex, add_number, add_to_each, numbers_for};
use crate::data_names::name::{ItemKind, Name, Referent};
use crate::data_names::nesting::{Nesting, nesting_at, nestings_of};
use cob_base::{Items, NoMemory, Word};
use cob_tree::{Entry, FileEntry, Picture};
use cob_words::first_places::WordPlaces;
use indexmap::IndexMap;
use std::alloc::Global;
use std::marker::Model;

/// The names of a program's files and items, each by its number.
///
/// Contracts see a table as the names of the entries and those of the files, in their order.
#[derive(Drop)]
pub struct NameTable {
    items: Items<Name>,
    files: WordPlaces,
    /// The numbers of the items of each name.
    index: WordIndex,
    /// The numbers of the items that each name may qualify.
    within: WordIndex,
}

impl Model for NameTable {
    ghost use Rattle.std.specs.Prelude.{◌≡◌, ◌<◌, ◌^◌, List, ℕ, length};
    ghost use Rattle.symbol_tables.specs.data_names.Index.{numbers_in, places_of, places_within};
    ghost use Rattle.symbol_tables.specs.data_names.Names.{Names};

    ghost Value = { Names };

    ghost view = { λ t. record { items = t.items; files = t.files } };

    ghost invariant = { λ t. (length t.items < 2 ^ 31) × (length t.files < 2 ^ 31)
        × ((word : List ℕ) → numbers_in t.index word ≡ places_of word t.items)
        × ((word : List ℕ) → numbers_in t.within word ≡ places_within word t.items) };
}

impl NameTable {
    /// The names that these files and entries declare.
    pub fn new(alloc: Global, files: &[FileEntry], entries: &[Entry]) -> Result<NameTable, NoMemory>
        requires files { length files.now < 2 ^ 31 }
        requires entries { length entries.now < 2 ^ 31 }
        ensures { Makes (names.names_of files.now entries.now) result }
    {
        let items = item_names(alloc, files, entries)?;
        let words = file_names(alloc, files)?;
        let files = WordPlaces::of(alloc, words)?;
        let index = index_of(alloc, items.as_slice())?;
        let within = within_of(alloc, items.as_slice())?;
        Ok(NameTable {
            items,
            files,
            index,
            within,
        })
    }

    /// The entry that a word with these qualifiers stands for.
    pub fn look(&self, word: &Word, of: &[Word]) -> Referent
        ensures { result ≡ look.look self.now word.now of.now }
    {
        let places = numbers_for(&self.index, &self.within, word, of);
        find_among(self.items.as_slice(), places, word, of)
    }

    /// The number of the file of this name, from 0; where two have it, that of the first.
    pub fn look_file(&self, word: &Word) -> Option<u32>
        ensures { result ≡ look.look_file self.now word.now }
    {
        match self.files.first(word) {
            None => None,
            Some(at) => Some(at as u32),
        }
    }
}

fn item_names(
    alloc: Global,
    files: &[FileEntry],
    entries: &[Entry],
) -> Result<Items<Name>, NoMemory>
    requires { length entries.now < 2 ^ 31 }
    ensures { Makes (names.names_from files.now [] entries.now) result }
{
    let nestings = nestings_of(alloc, entries)?;
    let mut items = Items::new(alloc);
    for (at, entry) in entries.iter().enumerate() {
        items.push(name_of(alloc, files, entries, nestings.as_slice(), at, entry)?)?;
    }
    Ok(items)
}

fn file_names(alloc: Global, files: &[FileEntry]) -> Result<Items<Word>, NoMemory>
    ensures { Makes (map (λ file. file.name) files.now) result }
{
    let mut words = Items::new(alloc);
    for file in files {
        words.push(file.name)?;
    }
    Ok(words)
}

fn picture_kind(picture: Option<Picture>) -> ItemKind
    ensures { result ≡ names.picture_kind picture }
{
    match picture {
        Some(Picture::Number { part, .. }) => ItemKind::Number { whole: part == 0 },
        Some(Picture::Edited(_)) => ItemKind::Edited,
        _ => ItemKind::Text,
    }
}

/// Whether it is an item with items below it, where these entries come after it.
pub fn is_group(entry: &Entry, behind: &[Entry]) -> bool
    ensures { result ≡ names.is_group entry.now behind.now }
{
    is_numbered(entry.level) && has_items(entry.level, entry.file, behind)
}

fn kind_of(entry: &Entry, group: bool) -> ItemKind
    ensures { result ≡ (if entry.now.level == 88 then Condition
        else (if group then Group else names.picture_kind entry.now.picture)) }
{
    if entry.level == 88 {
        ItemKind::Condition
    } else if group {
        ItemKind::Group
    } else {
        picture_kind(entry.picture)
    }
}

fn file_at(files: &[FileEntry], file: u32) -> Option<&FileEntry>
    ensures { option_copied result ≡ slice_get files.now file }
{
    files.get(file as usize)
}

fn add_file(words: &mut Items<Word>, files: &[FileEntry], file: Option<u32>) -> Result<(), NoMemory>
    ensures { OnOk result (words.new ≡ words.old ++ names.file_words files.now file) }
{
    let Some(file) = file else {
        return Ok(());
    };
    match file_at(files, file) {
        None => Ok(()),
        Some(file) => words.push(file.name),
    }
}

#[tactic(auto, using(crate::proofs::data_names_lemmas::NestingLemmas::own_rows))]
fn name_of(
    alloc: Global,
    files: &[FileEntry],
    entries: &[Entry],
    nestings: &[Nesting],
    at: usize,
    entry: &Entry,
) -> Result<Name, NoMemory>
    requires short { length entries.now < 2 ^ 31 }
    requires table { nestings.now ≡ nested.nestings_of entries.now }
    requires within { at < length entries.now }
    requires own { entry.now ≡ get_or entries.now at entry.now }
    ensures { Makes (names.name_of files.now (reverse (take at entries.now)) entry.now
        (drop (at + 1) entries.now)) result }
{
    let nesting = nesting_at(nestings, at);
    let above = groups_above(alloc, entries, nestings, nesting.holder)?;
    let mut words = above.words;
    add_file(&mut words, files, entry.file)?;
    Ok(Name {
        word: entry.name,
        above: words,
        kind: kind_of(entry, nesting.group),
        dims: above.dims + usize::from(repeats(entry)),
    })
}

/// Whether these qualifiers are some of these names, in their order.
#[tactic(auto, unfolding(crate::specs::data_names::Look::are_within))]
fn are_within(of: &[Word], above: &[Word]) -> bool
    ensures { result ≡ look.are_within of.now above.now }
{
    match of {
        [] => true,
        [first, others @ ..] => match above {
            [] => false,
            [name, outer @ ..] => {
                if *first == *name {
                    are_within(others, outer)
                } else {
                    are_within(of, outer)
                }
            }
        },
    }
}

fn is_called(word: &Word, name: Option<Word>) -> bool
    ensures { result ≡ look.is_called word.now name }
{
    match name {
        None => false,
        Some(name) => *word == name,
    }
}

fn fits(name: &Name, word: &Word, of: &[Word]) -> bool
    ensures { result ≡ look.fits word.now of.now name.now }
{
    is_called(word, name.word) && are_within(of, name.above.as_slice())
}

// The numbers of the items of each name.
#[tactic(auto, using(crate::proofs::data_names_lemmas::IndexLemmas::places_of_push))]
fn index_of(alloc: Global, items: &[Name]) -> Result<WordIndex, NoMemory>
    requires { length items.now < 2 ^ 31 }
    ensures { IfOk result (λ index. (word : List ℕ) → numbers_in index word
        ≡ places_of word items.now) }
{
    let mut index = IndexMap::new(alloc);
    for (at, name) in items.iter().enumerate() {
        add_name(alloc, &mut index, name.word, at as u32)?;
    }
    Ok(index)
}

// The numbers of the items that each name may qualify.
fn within_of(alloc: Global, items: &[Name]) -> Result<WordIndex, NoMemory>
    requires { length items.now < 2 ^ 31 }
    ensures { IfOk result (λ index. (word : List ℕ) → numbers_in index word
        ≡ places_within word items.now) }
{
    let mut index = IndexMap::new(alloc);
    for (at, name) in items.iter().enumerate() {
        add_to_each(alloc, &mut index, name.above.as_slice(), at as u32)?;
    }
    Ok(index)
}

#[tactic(auto, using(crate::proofs::data_names_lemmas::WordLemmas::bytes_eq_sym))]
fn add_name(
    alloc: Global,
    index: &mut WordIndex,
    word: Option<Word>,
    place: u32,
) -> Result<(), NoMemory>
    ensures { OnOk result ((other : List ℕ) → numbers_in index.new other
        ≡ numbers_in index.old other ++ (if look.is_called other word then place ∷ [] else [])) }
{
    match word {
        None => Ok(()),
        Some(word) => add_number(alloc, index, word, place),
    }
}

fn and_item(before: Referent, item: u32, name: &Name) -> Referent
    ensures { result ≡ and_item before item name.now }
{
    match before {
        Referent::Unknown => Referent::Item {
            item,
            kind: name.kind,
            dims: name.dims,
        },
        _ => Referent::Ambiguous,
    }
}

fn tally(names: &[Name], word: &Word, of: &[Word], before: Referent, item: u32) -> Referent
    ensures { result ≡ tally names.now word.now of.now before item }
{
    match names.get(item as usize) {
        None => before,
        Some(name) => {
            if fits(name, word, of) {
                and_item(before, item, name)
            } else {
                before
            }
        }
    }
}

fn find_among(names: &[Name], places: &[u32], word: &Word, of: &[Word]) -> Referent
    ensures { result ≡ find_among names.now word.now of.now places.now }
{
    let mut found = Referent::Unknown;
    for place in places {
        found = tally(names, word, of, found, *place);
    }
    found
}
