//! The words of a program.

ghost use Rattle.std.specs.Prelude.{◌≡◌, ◌++◌, ◌≤◌, ◌<◌, ◌^◌, length, IfOk, OnOk};
ghost use Rattle.std.specs.Option.{option_to_list};
ghost use Rattle.cob_base.specs.Answers.{Makes};
ghost use Rattle.out_names.specs.Words.{file_names, entry_names, paragraph_names, program_words, table_of};

use cob_base::{Items, NoMemory, Word};
use cob_tree::{Entry, FileEntry, Paragraph, Program};
use cob_words::WordTable;
use std::alloc::Global;

fn add_files(words: &mut Items<Word>, files: &[FileEntry]) -> Result<(), NoMemory>
    ensures { OnOk result (words.new ≡ words.old ++ file_names files.now) }
{
    for file in files {
        words.push(file.name)?;
    }
    Ok(())
}

fn add_entries(words: &mut Items<Word>, entries: &[Entry]) -> Result<(), NoMemory>
    ensures { OnOk result (words.new ≡ words.old ++ entry_names entries.now) }
{
    for entry in entries {
        add_word(words, entry.name)?;
    }
    Ok(())
}

fn add_word(words: &mut Items<Word>, word: Option<Word>) -> Result<(), NoMemory>
    ensures { OnOk result (words.new ≡ words.old ++ option_to_list word) }
{
    match word {
        None => Ok(()),
        Some(word) => words.push(word),
    }
}

fn add_paragraphs(words: &mut Items<Word>, paragraphs: &[Paragraph]) -> Result<(), NoMemory>
    ensures { OnOk result (words.new ≡ words.old ++ paragraph_names paragraphs.now) }
{
    for paragraph in paragraphs {
        add_word(words, paragraph.name)?;
        add_word(words, paragraph.section)?;
    }
    Ok(())
}

/// The words of a program as a list: its name, and those of its files, items, paragraphs and
/// sections.
fn program_words(alloc: Global, program: &Program) -> Result<Items<Word>, NoMemory>
    ensures { Makes (program_words program.now) result }
{
    let mut words = Items::new(alloc);
    words.push(program.name)?;
    add_files(&mut words, program.files.as_slice())?;
    add_entries(&mut words, program.entries.as_slice())?;
    add_paragraphs(&mut words, program.paragraphs.as_slice())?;
    Ok(words)
}

/// The table of these words, each once.
fn table_of(alloc: Global, words: &[Word]) -> Result<WordTable, NoMemory>
    requires { length words.now < 2 ^ 32 }
    ensures value { Makes (table_of words.now) result }
    ensures few { IfOk result (λ table. length table ≤ length words.now) }
{
    let mut table = WordTable::new(alloc);
    for word in words {
        table.add(*word)?;
    }
    Ok(table)
}

/// The table of a program's words: its name, and those of its files, items, paragraphs and
/// sections.
pub fn word_table(alloc: Global, program: &Program) -> Result<WordTable, NoMemory>
    requires { length (program_words program.now) < 2 ^ 32 }
    ensures value { Makes (table_of (program_words program.now)) result }
    ensures few { IfOk result (λ table. length table ≤ length (program_words program.now)) }
{
    let words = program_words(alloc, program)?;
    table_of(alloc, words.as_slice())
}
