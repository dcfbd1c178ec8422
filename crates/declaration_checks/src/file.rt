//! The rules on files.

ghost use Rattle.std.specs.Prelude.{◌≡◌, ◌<◌, ◌^◌, None, length, map};
ghost use Rattle.cob_base.specs.Answers.{Makes};
ghost use Rattle.declaration_checks.specs.File as files;
ghost use Rattle.declaration_checks.specs.FileNames as named;

use crate::fault::{fault_at, first_of, unless};
use crate::file_names::FileNames;
use cob_base::{Copied, Items, NoMemory};
use cob_tree::{FileEntry, Place};
use cob_words::first_places::WordPlaces;
use cobol_grammar::data_forms::{FdDraft, SelectDraft, StatusDraft};
use parser_combinators::{NameKind, Note};
use std::alloc::Global;

fn duplicate_fault(statuses: &[StatusDraft]) -> Option<Note>
    ensures { result ≡ files.duplicate_fault statuses.now }
{
    match statuses {
        [_, second, ..] => fault_at(NameKind::Usage, second.at),
        _ => None,
    }
}

fn named_fault(names: &FileNames, at: usize, select: &SelectDraft) -> Option<Note>
    ensures { result ≡ named.named_fault names.now at select.now }
{
    if names.selects.has_before(&select.name, at) {
        fault_at(NameKind::Duplicate, select.at)
    } else {
        unless(names.fds.has(&select.name), NameKind::Usage, select.at)
    }
}

fn select_fault(names: &FileNames, at: usize, select: &SelectDraft) -> Option<Note>
    ensures { result ≡ named.select_fault names.now at select.now }
{
    first_of(
        named_fault(names, at, select),
        duplicate_fault(select.statuses.as_slice()),
    )
}

/// The first fault of the SELECTs: each file has one, and an FD.
#[tactic(auto, using(crate::proofs::FileLemmas::selects_from_step))]
pub fn selects_fault(names: &FileNames, selects: &[SelectDraft]) -> Option<Note>
    ensures { result ≡ named.selects_from names.now None 0 selects.now }
{
    let mut fault = None;
    for (at, select) in selects.iter().enumerate() {
        fault = first_of(fault, select_fault(names, at, select));
    }
    fault
}

fn fd_fault(names: &FileNames, at: usize, fd: &FdDraft) -> Option<Note>
    ensures { result ≡ named.fd_fault names.now at fd.now }
{
    if names.fds.has_before(&fd.name, at) {
        fault_at(NameKind::Duplicate, fd.at)
    } else {
        unless(names.selects.has(&fd.name), NameKind::Usage, fd.at)
    }
}

/// The first fault of the FDs: each file has one, and a SELECT.
#[tactic(auto, using(crate::proofs::FileLemmas::fds_from_step))]
pub fn fds_fault(names: &FileNames, fds: &[FdDraft]) -> Option<Note>
    ensures { result ≡ named.fds_from names.now None 0 fds.now }
{
    let mut fault = None;
    for (at, fd) in fds.iter().enumerate() {
        fault = first_of(fault, fd_fault(names, at, fd));
    }
    fault
}

fn status_of(alloc: Global, statuses: &[StatusDraft]) -> Result<Option<Place>, NoMemory>
    ensures { Makes (files.status_of statuses.now) result }
{
    match statuses.get(statuses.len().saturating_sub(1)) {
        None => Ok(None),
        Some(status) => Ok(Some(status.place.copy(alloc)?)),
    }
}

fn file_of(alloc: Global, select: &SelectDraft) -> Result<FileEntry, NoMemory>
    ensures { Makes (files.file_of select.now) result }
{
    let assign = select.assign.copy(alloc)?;
    let status = status_of(alloc, select.statuses.as_slice())?;
    Ok(FileEntry {
        name: select.name,
        assign,
        status,
    })
}

/// The files of these SELECTs.
pub fn files_of(alloc: Global, selects: &[SelectDraft]) -> Result<Items<FileEntry>, NoMemory>
    ensures { Makes (map files.file_of selects.now) result }
{
    let mut files = Items::new(alloc);
    for select in selects {
        files.push(file_of(alloc, select)?)?;
    }
    Ok(files)
}

/// The number of an FD's file; for one without SELECT a number that no file has.
pub fn file_number(selects: &[SelectDraft], names: &WordPlaces, fd: &FdDraft, at: usize) -> usize
    requires selects { length selects.now < 2 ^ 31 }
    requires names { names.now ≡ named.selected selects.now }
    requires at { at < 2 ^ 31 }
    ensures value { result ≡ files.file_number selects.now fd.now at }
    ensures short { result < 2 ^ 32 }
{
    match names.first(&fd.name) {
        None => selects.len() + at,
        Some(number) => number,
    }
}
