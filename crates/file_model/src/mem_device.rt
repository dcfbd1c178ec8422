//! A device in memory.

ghost use Rattle.std.specs.Prelude.{◌≡◌, ◌≢◌, ◌↔◌, ◌+◌, ◌-◌, ◌^◌, ◌++◌, ◌∷◌, [], min, length, Some, Contains, IsTrue, MatchOption, OnErr, OnOk};
ghost use Rattle.std.specs.Str.{bytes_eq};
ghost use Rattle.cob_base.specs.Answers.{Makes};
ghost use Rattle.cob_base.specs.Faults.{counted_on};
ghost use Rattle.file_model.specs.First.{GivesNext, HasNone, IsFirst};
ghost use Rattle.file_model.specs.Told.{Changes, Counts, GivesAtMost, Opens, Reads, StaysUngiven, appended, changed, made, open_fails, opened_as, put_fails, read_fails, replaced, replaced_from, shut};

use crate::device::{Device, Got, Opened, Put};
use crate::mem_file::MemFile;
use cob_base::{NoMemory, Text};
use cob_tree::How;
use std::alloc::Global;

/// Files in memory, by their names, which are all different.
#[derive(Debug, Drop)]
pub struct MemDevice {
    pub name: Text,
    pub files: Vec<MemFile>,
    pub calls: u64,
    /// The numbers, from 1, of the calls that fail; `name` and `faults` don't count.
    pub failing: Vec<u64>,
    pub count: u64,
}

fn is_named(file: &MemFile, name: &[u8]) -> bool
    ensures { result ≡ bytes_eq file.now.name name.now }
{
    file.name.as_slice() == name
}

// The place of the first file of that name.
fn find(files: &[MemFile], name: &[u8]) -> Option<usize>
    ensures { MatchOption result (HasNone name.now files.now) (IsFirst name.now files.now) }
{
    for at in 0..files.len() {
        if is_named(&files[at], name) {
            return Some(at);
        }
    }
    None
}

fn open_as(file: &mut MemFile, how: How)
    ensures { file.new ≡ opened_as how file.old }
{
    file.how = Some(how);
    file.at = 0;
    file.last = None;
    match how {
        How::Output => file.bytes.bytes.clear(),
        How::Extend => file.at = file.bytes.as_slice().len(),
        How::Input => {}
        How::InOut => {}
    }
}

// Reads what comes next of a file, as much as fits.
fn read_on(file: &mut MemFile, into: &mut [u8]) -> Got
    ensures bound { GivesAtMost (length into.old) result }
    ensures ungiven { StaysUngiven result into.old into.new }
    ensures given { GivesNext file.old result into.old into.new file.new }
    ensures live { result ≢ Got.Failed }
{
    let bytes = file.bytes.as_slice();
    if file.at >= bytes.len() {
        return Got::End;
    }
    let size = into.len().min(bytes.len() - file.at);
    into[..size].copy_from_slice(&bytes[file.at..file.at + size]);
    file.last = Some(file.at);
    file.at += size;
    Got::Bytes(size)
}

fn append(file: &mut MemFile, bytes: &[u8]) -> Result<(), NoMemory>
    ensures ok { OnOk result (file.new ≡ appended bytes.now file.old) }
    ensures err { OnErr result (file.new ≡ file.old) }
{
    file.bytes.add(bytes)
}

// Replaces the bytes from a place on, and sets the position after them.
fn replace(file: &mut MemFile, start: usize, bytes: &[u8]) -> Result<(), NoMemory>
    ensures ok { OnOk result (file.new ≡ replaced_from (Some start) bytes.now file.old) }
    ensures err { OnErr result (file.new ≡ file.old) }
{
    let alloc = *file.bytes.bytes.allocator();
    let old = file.bytes.as_slice();
    let mut whole = Vec::from_slice(alloc, &old[..start.min(old.len())])?;
    whole.extend_from_slice(bytes)?;
    let at = whole.len();
    whole.extend_from_slice(&old[start.saturating_add(bytes.len()).min(old.len())..])?;
    file.bytes = Text { bytes: whole };
    file.at = at;
    Ok(())
}

fn replace_last(file: &mut MemFile, bytes: &[u8]) -> Result<(), NoMemory>
    ensures ok { OnOk result (file.new ≡ replaced bytes.now file.old) }
    ensures err { OnErr result (file.new ≡ file.old) }
{
    match file.last {
        None => Ok(()),
        Some(start) => replace(file, start, bytes),
    }
}

fn new_file(alloc: Global, name: &[u8]) -> Result<MemFile, NoMemory>
    ensures { Makes (made name.now) result }
{
    Ok(MemFile {
        name: Text {
            bytes: Vec::from_slice(alloc, name)?,
        },
        bytes: Text::new(alloc),
        how: Some(How::Output),
        at: 0,
        last: None,
    })
}

// Makes a file, with a name that no other has.
fn make(files: &mut Vec<MemFile>, name: &[u8]) -> Result<(), NoMemory>
    ensures ok { OnOk result (files.new.items ≡ files.old.items ++ made name.now ∷ []) }
    ensures err { OnErr result (files.new.items ≡ files.old.items) }
{
    let file = new_file(*files.allocator(), name)?;
    files.push(file)?;
    Ok(())
}

fn open_in(files: &mut Vec<MemFile>, name: &[u8], how: How) -> Opened
    ensures told { Opens (Some files.old.items) name.now how result (Some files.new.items) }
    ensures live { result ≢ Opened.Failed }
{
    match find(files.as_slice(), name) {
        Some(at) => {
            open_as(&mut files[at], how);
            Opened::Ready
        }
        None => {
            if how != How::Output {
                return Opened::Missing;
            }
            match make(files, name) {
                Ok(()) => Opened::Ready,
                Err(_) => Opened::NoMemory,
            }
        }
    }
}

fn read_in(files: &mut [MemFile], name: &[u8], into: &mut [u8]) -> Got
    ensures bound { GivesAtMost (length into.old) result }
    ensures ungiven { StaysUngiven result into.old into.new }
    ensures told { Reads (Some files.old) name.now result into.old into.new (Some files.new) }
    ensures live { result ≢ Got.Failed }
{
    match find(files, name) {
        None => Got::End,
        Some(at) => read_on(&mut files[at], into),
    }
}

fn append_in(files: &mut [MemFile], name: &[u8], bytes: &[u8]) -> Put
    ensures told { Changes (Some files.old) name.now (appended bytes.now) result (Some files.new) }
    ensures live { result ≢ Put.Failed }
{
    match find(files, name) {
        None => Put::Done,
        Some(at) => match append(&mut files[at], bytes) {
            Ok(()) => Put::Done,
            Err(_) => Put::NoMemory,
        },
    }
}

fn replace_in(files: &mut [MemFile], name: &[u8], bytes: &[u8]) -> Put
    ensures told { Changes (Some files.old) name.now (replaced bytes.now) result (Some files.new) }
    ensures live { result ≢ Put.Failed }
{
    match find(files, name) {
        None => Put::Done,
        Some(at) => match replace_last(&mut files[at], bytes) {
            Ok(()) => Put::Done,
            Err(_) => Put::NoMemory,
        },
    }
}

fn close_in(files: &mut [MemFile], name: &[u8])
    ensures { files.new ≡ changed name.now shut files.old }
{
    if let Some(at) = find(files, name) {
        files[at].how = None;
    }
}

impl MemDevice {
    // Whether this call is to fail.
    fn fails(&mut self) -> bool
        ensures name { self.new.name ≡ self.old.name }
        ensures files { self.new.files.items ≡ self.old.files.items }
        ensures counted { self.new.count ≡ counted_on result self.old.count }
        ensures listed { IsTrue result ↔ Contains self.old.failing.items self.new.calls }
        ensures called { self.new.calls ≡ min (self.old.calls + 1) (2 ^ 64 - 1) }
        ensures failing { self.new.failing.items ≡ self.old.failing.items }
        ensures cause { Counts result self.old.count self.new.count }
    {
        self.calls = self.calls.saturating_add(1);
        let fails = self.failing.contains(&self.calls);
        if fails {
            self.count = self.count.saturating_add(1);
        }
        fails
    }
}

impl Device for MemDevice {
    ghost use Rattle.std.specs.Prelude.{Some};

    ghost named = { λ d. d.name };

    ghost told = { λ d. Some d.files.items };

    ghost faults = { λ d. d.count };

    fn name(&self) -> &[u8] {
        self.name.as_slice()
    }

    fn open_file(&mut self, file: &[u8], how: How) -> Opened
        ensures name { self.new.name ≡ self.old.name }
        ensures told { Opens (Some self.old.files.items) file.now how result
            (Some self.new.files.items) }
        ensures cause { Counts (open_fails result) self.old.count self.new.count }
        ensures listed { (result ≡ Opened.Failed) ↔ Contains self.old.failing.items self.new.calls }
        ensures called { self.new.calls ≡ min (self.old.calls + 1) (2 ^ 64 - 1) }
        ensures failing { self.new.failing.items ≡ self.old.failing.items }
    {
        if self.fails() {
            return Opened::Failed;
        }
        open_in(&mut self.files, file, how)
    }

    fn read_next(&mut self, file: &[u8], into: &mut [u8]) -> Got
        ensures name { self.new.name ≡ self.old.name }
        ensures bound { GivesAtMost (length into.old) result }
        ensures ungiven { StaysUngiven result into.old into.new }
        ensures told { Reads (Some self.old.files.items) file.now result into.old into.new
            (Some self.new.files.items) }
        ensures cause { Counts (read_fails result) self.old.count self.new.count }
        ensures listed { (result ≡ Got.Failed) ↔ Contains self.old.failing.items self.new.calls }
        ensures called { self.new.calls ≡ min (self.old.calls + 1) (2 ^ 64 - 1) }
        ensures failing { self.new.failing.items ≡ self.old.failing.items }
    {
        if self.fails() {
            return Got::Failed;
        }
        read_in(&mut self.files, file, into)
    }

    fn write_next(&mut self, file: &[u8], bytes: &[u8]) -> Put
        ensures name { self.new.name ≡ self.old.name }
        ensures told { Changes (Some self.old.files.items) file.now (appended bytes.now) result
            (Some self.new.files.items) }
        ensures cause { Counts (put_fails result) self.old.count self.new.count }
        ensures listed { (result ≡ Put.Failed) ↔ Contains self.old.failing.items self.new.calls }
        ensures called { self.new.calls ≡ min (self.old.calls + 1) (2 ^ 64 - 1) }
        ensures failing { self.new.failing.items ≡ self.old.failing.items }
    {
        if self.fails() {
            return Put::Failed;
        }
        append_in(&mut self.files, file, bytes)
    }

    fn rewrite_last(&mut self, file: &[u8], bytes: &[u8]) -> Put
        ensures name { self.new.name ≡ self.old.name }
        ensures told { Changes (Some self.old.files.items) file.now (replaced bytes.now) result
            (Some self.new.files.items) }
        ensures cause { Counts (put_fails result) self.old.count self.new.count }
        ensures listed { (result ≡ Put.Failed) ↔ Contains self.old.failing.items self.new.calls }
        ensures called { self.new.calls ≡ min (self.old.calls + 1) (2 ^ 64 - 1) }
        ensures failing { self.new.failing.items ≡ self.old.failing.items }
    {
        if self.fails() {
            return Put::Failed;
        }
        replace_in(&mut self.files, file, bytes)
    }

    fn close_file(&mut self, file: &[u8]) -> Put
        ensures name { self.new.name ≡ self.old.name }
        ensures told { Changes (Some self.old.files.items) file.now shut result
            (Some self.new.files.items) }
        ensures cause { Counts (put_fails result) self.old.count self.new.count }
        ensures memory { result ≢ Put.NoMemory }
        ensures listed { (result ≡ Put.Failed) ↔ Contains self.old.failing.items self.new.calls }
        ensures called { self.new.calls ≡ min (self.old.calls + 1) (2 ^ 64 - 1) }
        ensures failing { self.new.failing.items ≡ self.old.failing.items }
    {
        if self.fails() {
            return Put::Failed;
        }
        close_in(&mut self.files, file);
        Put::Done
    }

    fn faults(&self) -> u64 {
        self.count
    }
}
