//! The names of procedures.

ghost use Rattle.std.specs.Prelude.{◌≡◌, ◌+◌, ◌*◌, ◌<◌, ◌^◌, [], length};
ghost use Rattle.cob_base.specs.Answers.{Makes};
ghost use Rattle.out_names.specs.Words.{program_words};
ghost use Rattle.out_names.specs.Naming.{paragraph_label, own_label, has_entry, named, names_behind, names_of};

use crate::fresh_words::fresh;
use crate::words::word_table;
use cob_base::{Items, NoMemory, Word};
use cob_tree::{Paragraph, Program, Range};
use cob_words::WordTable;
use std::alloc::Global;

/// A name, and the number from which the next fresh one is searched for.
#[derive(Clone, Copy)]
struct Named {
    name: Word,
    next: u32,
}

/// The label of a paragraph: its name, or else its section's.
pub fn paragraph_label(paragraphs: &[Paragraph], entry: u32) -> Option<Word>
    ensures { result ≡ paragraph_label paragraphs.now entry }
{
    match paragraphs.get(entry as usize) {
        None => None,
        Some(paragraph) => match paragraph.name {
            None => paragraph.section,
            Some(name) => Some(name),
        },
    }
}

/// Whether one of the ranges begins at this paragraph.
fn has_entry(ranges: &[Range], entry: u32) -> bool
    ensures { result ≡ has_entry ranges.now entry }
{
    for range in ranges {
        if range.entry == entry {
            return true;
        }
    }
    false
}

/// The label of its entry, where no range before has it.
fn own_label(paragraphs: &[Paragraph], before: &[Range], entry: u32) -> Option<Word>
    ensures { result ≡ own_label paragraphs.now before.now entry }
{
    if has_entry(before, entry) {
        return None;
    }
    paragraph_label(paragraphs, entry)
}

/// The label, or the next fresh name.
fn next_name(
    alloc: Global,
    words: &WordTable,
    label: Option<Word>,
    from: u32,
) -> Result<Named, NoMemory>
    requires { from + length words.now + 1 < 2 ^ 32 }
    ensures { Makes (named words.now label from) result }
{
    match label {
        Some(name) => Ok(Named { name, next: from }),
        None => {
            let made = fresh(alloc, words, b"RX-PARA-", from)?;
            Ok(Named {
                name: made.word,
                next: made.number + 1,
            })
        }
    }
}

/// The names of these procedures, given the words of a program.
fn procedure_names(
    alloc: Global,
    words: &WordTable,
    paragraphs: &[Paragraph],
    ranges: &[Range],
) -> Result<Items<Word>, NoMemory>
    requires { 2 * length words.now + length ranges.now + 2 < 2 ^ 32 }
    ensures { Makes (names_behind words.now paragraphs.now [] 1 ranges.now) result }
{
    let mut names = Items::new(alloc);
    let mut from = 1;
    for (at, range) in ranges.iter().enumerate() {
        let label = own_label(paragraphs, &ranges[..at], range.entry);
        let named = next_name(alloc, words, label, from)?;
        names.push(named.name)?;
        from = named.next;
    }
    Ok(names)
}

/// The names of these procedures, in output order: the first with an entry takes its label, any
/// other the next fresh `RX-PARA-1`, `RX-PARA-2` and so on.
pub fn names(alloc: Global, program: &Program, ranges: &[Range]) -> Result<Items<Word>, NoMemory>
    requires { 2 * length (program_words program.now) + length ranges.now + 2 < 2 ^ 32 }
    ensures { Makes (names_of program.now ranges.now) result }
{
    let words = word_table(alloc, program)?;
    procedure_names(alloc, &words, program.paragraphs.as_slice(), ranges)
}
