//! The names of a program's files, by tables.

ghost use Rattle.cob_base.specs.Answers.{Makes};
ghost use Rattle.declaration_checks.specs.FileNames as named;

use cob_base::{Items, NoMemory, Word};
use cob_words::first_places::WordPlaces;
use cobol_grammar::data_forms::{FdDraft, SelectDraft};
use std::alloc::Global;

/// The names of files, as SELECTs and FDs have them.
#[derive(Drop)]
pub struct FileNames {
    pub selects: WordPlaces,
    pub fds: WordPlaces,
}

fn selected(alloc: Global, selects: &[SelectDraft]) -> Result<Items<Word>, NoMemory>
    ensures { Makes (named.selected selects.now) result }
{
    let mut words = Items::new(alloc);
    for select in selects {
        words.push(select.name)?;
    }
    Ok(words)
}

fn described(alloc: Global, fds: &[FdDraft]) -> Result<Items<Word>, NoMemory>
    ensures { Makes (named.described fds.now) result }
{
    let mut words = Items::new(alloc);
    for fd in fds {
        words.push(fd.name)?;
    }
    Ok(words)
}

/// The names of files in these SELECTs and FDs.
pub fn file_names(
    alloc: Global,
    selects: &[SelectDraft],
    fds: &[FdDraft],
) -> Result<FileNames, NoMemory>
    ensures { Makes (named.names_of selects.now fds.now) result }
{
    let selects = WordPlaces::of(alloc, selected(alloc, selects)?)?;
    let fds = WordPlaces::of(alloc, described(alloc, fds)?)?;
    Ok(FileNames { selects, fds })
}
