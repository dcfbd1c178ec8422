//! What drafts declare.

ghost use Rattle.std.specs.Prelude.{◌≡◌, ◌++◌, ◌<◌, ◌^◌, [], Some, length, slice_get, OnOk, IfOk};
ghost use Rattle.std.specs.List.{fold};
ghost use Rattle.cob_base.specs.Answers.{Makes};
ghost use Rattle.declaration_checks.specs.Declaring as declaring;
ghost use Rattle.declaration_checks.specs.FileNames.{names_of, selected};
ghost use Rattle.declaration_checks.specs.Tables.{alikes_of, tables_of};

use crate::base::base_of;
use crate::file::{file_number, files_of};
use crate::file_names::{FileNames, file_names};
use crate::judging::fault_by;
use crate::redefining::redefined_in;
use crate::standing::behind;
use crate::table::{Tables, tables_of};
use crate::usage::{found_usage, own_usages};
use cob_base::{Copied, Items, NoMemory};
use cob_store::sizes::sizes_of;
use cob_tree::{Entry, FileEntry, Picture, Usage};
use cob_words::first_places::WordPlaces;
use cobol_grammar::data_forms::{Divisions, EntryDraft, FdDraft, SelectDraft};
use parser_combinators::Note;
use std::alloc::Global;
use symbol_tables::data_names::is_group;

/// The files and entries of a program, and the first fault of their rules.
#[derive(Debug, Drop)]
pub struct Declared {
    pub files: Items<FileEntry>,
    pub entries: Items<Entry>,
    pub fault: Option<Note>,
}

fn add_section(
    alloc: Global,
    bases: &mut Items<Entry>,
    drafts: &[EntryDraft],
    file: Option<u32>,
) -> Result<(), NoMemory>
    ensures { OnOk result (bases.new ≡ bases.old ++ declaring.section_bases file drafts.now) }
{
    for draft in drafts {
        bases.push(base_of(alloc, draft, file)?)?;
    }
    Ok(())
}

#[tactic(auto, using(crate::proofs::StepLemmas::record_bases_step))]
fn record_bases(
    alloc: Global,
    selects: &[SelectDraft],
    names: &WordPlaces,
    fds: &[FdDraft],
) -> Result<Items<Entry>, NoMemory>
    requires selects { length selects.now < 2 ^ 31 }
    requires names { names.now ≡ selected selects.now }
    requires fds { length fds.now < 2 ^ 31 }
    ensures { Makes (declaring.record_bases selects.now 0 fds.now) result }
{
    let mut bases = Items::new(alloc);
    for (at, fd) in fds.iter().enumerate() {
        let file = file_number(selects, names, fd, at) as u32;
        add_section(alloc, &mut bases, fd.entries.as_slice(), Some(file))?;
    }
    Ok(bases)
}

// The entries of these divisions; entries and files are numbered below 2^31.
fn bases_of(
    alloc: Global,
    divisions: &Divisions,
    names: &FileNames,
) -> Result<Items<Entry>, NoMemory>
    requires names { names.now ≡ names_of divisions.now.selects divisions.now.data_part.fds }
    ensures value { Makes (declaring.bases_of divisions.now) result }
    ensures short { IfOk result (λ bases. length bases < 2 ^ 31) }
{
    let selects = divisions.selects.as_slice();
    let fds = divisions.data_part.fds.as_slice();
    if selects.len() >= 2_147_483_648 {
        return Err(NoMemory);
    }
    if fds.len() >= 2_147_483_648 {
        return Err(NoMemory);
    }
    let mut bases = record_bases(alloc, selects, &names.selects, fds)?;
    add_section(
        alloc,
        &mut bases,
        divisions.data_part.storage.as_slice(),
        None,
    )?;
    if bases.len() >= 2_147_483_648 {
        return Err(NoMemory);
    }
    Ok(bases)
}

fn picture_of(bases: &[Entry], at: usize, entry: &Entry) -> Option<Picture>
    ensures { result ≡ declaring.picture_of bases.now at entry.now }
{
    if is_group(entry, behind(bases, at)) {
        None
    } else {
        entry.picture
    }
}

fn redefines_of(
    bases: &[Entry],
    alikes: &[Option<usize>],
    at: usize,
    entry: &Entry,
    draft: &EntryDraft,
) -> Option<u32>
    requires short { length bases.now < 2 ^ 31 }
    requires table { alikes.now ≡ alikes_of bases.now }
    requires own { slice_get bases.now at ≡ Some entry.now }
    ensures { result ≡ declaring.redefines_of bases.now at entry.now draft.now }
{
    if entry.level == 88 {
        return None;
    }
    match redefined_in(bases, alikes, at, entry, draft.clauses.as_slice()) {
        None => None,
        Some(number) => Some(number as u32),
    }
}

fn usage_of(bases: &[Entry], usages: &[Option<Usage>], at: usize, entry: &Entry) -> Usage
    ensures { result ≡ declaring.usage_of bases.now usages.now at entry.now }
{
    if is_group(entry, behind(bases, at)) {
        return Usage::Display;
    }
    match found_usage(usages, at) {
        None => Usage::Display,
        Some(usage) => usage,
    }
}

fn settled(
    alloc: Global,
    bases: &[Entry],
    tables: &Tables,
    at: usize,
    draft: &EntryDraft,
    entry: &Entry,
) -> Result<Entry, NoMemory>
    requires short { length bases.now < 2 ^ 31 }
    requires table { tables.now ≡ tables_of bases.now tables.now.usages }
    requires own { slice_get bases.now at ≡ Some entry.now }
    ensures { Makes (declaring.settled bases.now tables.now.usages at draft.now entry.now) result }
{
    let value = entry.value.copy(alloc)?;
    let ranges = entry.ranges.copy(alloc)?;
    Ok(Entry {
        level: entry.level,
        name: entry.name,
        file: entry.file,
        redefines: redefines_of(bases, tables.alikes.as_slice(), at, entry, draft),
        picture: picture_of(bases, at, entry),
        sign: entry.sign,
        usage: usage_of(bases, tables.usages.as_slice(), at, entry),
        occurs: entry.occurs,
        value,
        ranges,
    })
}

fn settle(
    alloc: Global,
    bases: &[Entry],
    tables: &Tables,
    entries: &mut Items<Entry>,
    draft: &EntryDraft,
) -> Result<(), NoMemory>
    requires short { length bases.now < 2 ^ 31 }
    requires table { tables.now ≡ tables_of bases.now tables.now.usages }
    ensures { OnOk result (entries.new
        ≡ declaring.settle bases.now tables.now.usages entries.old draft.now) }
{
    let at = entries.len();
    match bases.get(at) {
        None => Ok(()),
        Some(entry) => entries.push(settled(alloc, bases, tables, at, draft, entry)?),
    }
}

#[tactic(auto, using(crate::proofs::StepLemmas::fold_step))]
fn settle_all(
    alloc: Global,
    bases: &[Entry],
    tables: &Tables,
    entries: &mut Items<Entry>,
    drafts: &[EntryDraft],
) -> Result<(), NoMemory>
    requires short { length bases.now < 2 ^ 31 }
    requires table { tables.now ≡ tables_of bases.now tables.now.usages }
    ensures { OnOk result (entries.new
        ≡ declaring.settle_all bases.now tables.now.usages entries.old drafts.now) }
{
    for draft in drafts {
        settle(alloc, bases, tables, entries, draft)?;
    }
    Ok(())
}

#[tactic(auto, using(crate::proofs::StepLemmas::fold_step))]
fn settle_records(
    alloc: Global,
    bases: &[Entry],
    tables: &Tables,
    fds: &[FdDraft],
) -> Result<Items<Entry>, NoMemory>
    requires short { length bases.now < 2 ^ 31 }
    requires table { tables.now ≡ tables_of bases.now tables.now.usages }
    ensures { Makes (fold (declaring.settle_records bases.now tables.now.usages) [] fds.now)
        result }
{
    let mut entries = Items::new(alloc);
    for fd in fds {
        settle_all(alloc, bases, tables, &mut entries, fd.entries.as_slice())?;
    }
    Ok(entries)
}

fn settled_by(
    alloc: Global,
    bases: &[Entry],
    tables: &Tables,
    divisions: &Divisions,
) -> Result<Items<Entry>, NoMemory>
    requires short { length bases.now < 2 ^ 31 }
    requires table { tables.now ≡ tables_of bases.now tables.now.usages }
    ensures { Makes (declaring.settled_by bases.now tables.now.usages divisions.now) result }
{
    let mut entries = settle_records(alloc, bases, tables, divisions.data_part.fds.as_slice())?;
    settle_all(
        alloc,
        bases,
        tables,
        &mut entries,
        divisions.data_part.storage.as_slice(),
    )?;
    Ok(entries)
}

/// The files and entries that these divisions declare, and the first fault of their rules in the
/// order of tokens; there is none exactly where all rules hold. With a fault the entries are of no
/// use.
pub fn declared_of(alloc: Global, divisions: &Divisions) -> Result<Declared, NoMemory>
    ensures { Makes (declaring.declared_of divisions.now) result }
{
    let selects = divisions.selects.as_slice();
    let names = file_names(alloc, selects, divisions.data_part.fds.as_slice())?;
    let bases = bases_of(alloc, divisions, &names)?;
    let owns = own_usages(alloc, &divisions.data_part)?;
    let tables = tables_of(alloc, bases.as_slice(), owns.as_slice())?;
    let entries = settled_by(alloc, bases.as_slice(), &tables, divisions)?;
    let sizes = sizes_of(alloc, entries.as_slice())?;
    let fault = fault_by(
        bases.as_slice(),
        sizes.as_slice(),
        &tables,
        &names,
        divisions,
    );
    let files = files_of(alloc, selects)?;
    Ok(Declared {
        files,
        entries,
        fault,
    })
}
