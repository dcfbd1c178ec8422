//! The tables, made once, by which entries are judged.

ghost use Rattle.std.specs.Prelude.{◌≡◌, ◌==◌, ◌++◌, ◌<◌, ◌≤◌, Some, length, reverse, slice_get, take, OnOk, if◌then◌else◌};
ghost use Rattle.std.specs.Option.{is_some};
ghost use Rattle.cob_base.specs.Answers.{Makes};
ghost use Rattle.symbol_tables.specs.data_names.Grouping.{word_list};
ghost use Rattle.declaration_checks.specs.Redefining as redefining;
ghost use Rattle.declaration_checks.specs.Tables as tables;
ghost use Rattle.declaration_checks.specs.Usage as usages;

use crate::usage::usages_of;
use cob_base::{Items, NoMemory, Word};
use cob_tree::{Entry, Usage};
use cob_words::first_places::WordPlaces;
use std::alloc::Global;
use symbol_tables::data_names::{Nesting, bound_of, holds, nestings_of, same_file};

/// What is often looked up for the entries of a program.
#[derive(Drop)]
pub struct Tables {
    pub nestings: Items<Nesting>,
    /// For each entry the last one before it with the same level and group that redefines nothing.
    pub alikes: Items<Option<usize>>,
    pub names: WordPlaces,
    /// The usage of each entry, by its clause or handed down to it.
    pub usages: Items<Option<Usage>>,
}

/// What the table has for the entry of this number.
pub fn alike_at(alikes: &[Option<usize>], at: usize) -> Option<usize>
    requires { at < length alikes.now }
    ensures { slice_get alikes.now at ≡ Some result }
{
    alikes[at]
}

fn is_level_of(entry: &Entry, other: &Entry) -> bool
    ensures { result ≡ (other.now.level == entry.now.level) }
{
    other.level == entry.level
}

// What an entry leads to: itself, or what the table has for it where it redefines.
fn alike_of(other: &Entry, number: usize, alike: Option<usize>) -> Option<usize>
    ensures { result ≡ (if is_some other.now.redefines then alike else Some number) }
{
    if other.redefines.is_some() {
        alike
    } else {
        Some(number)
    }
}

/// The last entry of this entry's level and group among those that the table has.
fn last_alike(entry: &Entry, entries: &[Entry], alikes: &[Option<usize>]) -> Option<usize>
    requires within { length alikes.now ≤ length entries.now }
    requires table { alikes.now ≡ take (length alikes.now) (tables.alikes_of entries.now) }
    ensures { result ≡ redefining.last_alike entry.now
        (reverse (take (length alikes.now) entries.now)) }
{
    let bound = bound_of(entry.level);
    let mut at = alikes.len();
    while at > 0 {
        at -= 1;
        let other = &entries[at];
        if !same_file(entry.file, other.file) {
            return None;
        }
        if holds(bound, other) {
            return None;
        }
        if is_level_of(entry, other) {
            return alike_of(other, at, alike_at(alikes, at));
        }
    }
    None
}

fn alikes_of(alloc: Global, entries: &[Entry]) -> Result<Items<Option<usize>>, NoMemory>
    ensures { Makes (tables.alikes_of entries.now) result }
{
    let mut alikes = Items::new(alloc);
    for entry in entries {
        alikes.push(last_alike(entry, entries, alikes.as_slice()))?;
    }
    Ok(alikes)
}

fn add_name(names: &mut Items<Word>, name: Option<Word>) -> Result<(), NoMemory>
    ensures { OnOk result (names.new ≡ names.old ++ word_list name) }
{
    match name {
        None => Ok(()),
        Some(name) => names.push(name),
    }
}

fn names_in(alloc: Global, entries: &[Entry]) -> Result<Items<Word>, NoMemory>
    ensures { Makes (tables.names_in entries.now) result }
{
    let mut names = Items::new(alloc);
    for entry in entries {
        add_name(&mut names, entry.name)?;
    }
    Ok(names)
}

/// The tables of these entries, which have these usages of their own.
pub fn tables_of(
    alloc: Global,
    entries: &[Entry],
    owns: &[Option<Usage>],
) -> Result<Tables, NoMemory>
    ensures { Makes (tables.tables_of entries.now (usages.usages_of entries.now owns.now)) result }
{
    let nestings = nestings_of(alloc, entries)?;
    let alikes = alikes_of(alloc, entries)?;
    let names = WordPlaces::of(alloc, names_in(alloc, entries)?)?;
    let usages = usages_of(alloc, entries, nestings.as_slice(), owns)?;
    Ok(Tables {
        nestings,
        alikes,
        names,
        usages,
    })
}
