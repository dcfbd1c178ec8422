//! A device over the files of one folder, as `main` hands it to the interpreter under the name
//! DISK.
//!
//! It is at the edge of what is proved: it keeps the trait's clauses on names, lengths and counts
//! of failures, and contracts know nothing of what its files hold. A test of `interpreter_tests`
//! tries it on a real folder.

mod folder_file;
mod slot;

ghost use Rattle.std.specs.Prelude.{◌≡◌, ◌≢◌, ◌<◌, ◌≤◌, IfOk, IfSome, length, true};
ghost use Rattle.file_model.specs.Told.{Counts, put_fails};

use crate::folder::folder_file::FolderFile;
use crate::{Device, Got, Opened, Put};
use cob_base::{NoMemory, Text};
use cob_tree::How;
use std::alloc::Global;
use std::fs::Files;
use std::io::{Error, ErrorKind, Result as IoResult};

/// The files of one folder. Each error of the system counts as a failure, except at OPEN a missing
/// file and out of memory. A name that is already open is closed, and then opened again.
#[derive(Drop)]
pub struct FolderDevice<R: Files + Drop> {
    name: Text,
    folder: R,
    files: Vec<FolderFile<R::File>>,
    count: u64,
}

impl<R: Files + Drop> FolderDevice<R> {
    /// A device of this name over the folder in which `folder` looks for paths, with no file open.
    pub fn new(alloc: Global, name: &[u8], folder: R) -> Result<FolderDevice<R>, NoMemory>
        ensures name { IfOk result (λ d. d.name ≡ name.now) }
        ensures count { IfOk result (λ d. d.count ≡ 0) }
    {
        let mut text = Text::new(alloc);
        match text.add(name) {
            Ok(()) => Ok(FolderDevice {
                name: text,
                folder,
                files: Vec::new(alloc),
                count: 0,
            }),
            Err(error) => {
                drop(folder);
                Err(error)
            }
        }
    }

    fn place_of(&self, file: &[u8]) -> Option<usize>
        ensures { IfSome result (λ at. at < length self.now.files.items) }
    {
        for at in 0..self.files.len() {
            if self.files[at].name.as_slice() == file {
                return Some(at);
            }
        }
        None
    }

    fn fail(&mut self)
        ensures name { self.new.name ≡ self.old.name }
        ensures cause { Counts true self.old.count self.new.count }
    {
        self.count = self.count.saturating_add(1);
    }

    // A file that is opened again is closed first, with what it has written.
    fn try_open(&mut self, file: &[u8], how: How) -> IoResult<()>
        ensures name { self.new.name ≡ self.old.name }
        ensures count { self.new.count ≡ self.old.count }
    {
        self.files.reserve(1)?;
        self.try_close(file)?;
        let alloc = *self.files.allocator();
        let opened = FolderFile::open(alloc, &self.folder, file, how)?;
        self.files.push(opened)?;
        Ok(())
    }

    fn try_close(&mut self, file: &[u8]) -> IoResult<()>
        ensures name { self.new.name ≡ self.old.name }
        ensures count { self.new.count ≡ self.old.count }
    {
        match self.place_of(file) {
            None => Ok(()),
            Some(at) => {
                let mut closed = self.files.remove(at);
                closed.finish()
            }
        }
    }

    fn try_read(&mut self, file: &[u8], into: &mut [u8]) -> IoResult<usize>
        ensures name { self.new.name ≡ self.old.name }
        ensures count { self.new.count ≡ self.old.count }
        ensures bound { IfOk result (λ n. n ≤ length into.old) }
        ensures ungiven { IfOk result (λ n. n ≡ 0 → into.new ≡ into.old) }
    {
        match self.place_of(file) {
            None => Err(Error::from(ErrorKind::NotFound)),
            Some(at) => self.files[at].read(into),
        }
    }

    fn try_write(&mut self, file: &[u8], bytes: &[u8]) -> IoResult<()>
        ensures name { self.new.name ≡ self.old.name }
        ensures count { self.new.count ≡ self.old.count }
    {
        match self.place_of(file) {
            None => Err(Error::from(ErrorKind::NotFound)),
            Some(at) => self.files[at].write(bytes),
        }
    }

    fn try_rewrite(&mut self, file: &[u8], bytes: &[u8]) -> IoResult<()>
        ensures name { self.new.name ≡ self.old.name }
        ensures count { self.new.count ≡ self.old.count }
    {
        match self.place_of(file) {
            None => Err(Error::from(ErrorKind::NotFound)),
            Some(at) => self.files[at].rewrite(bytes),
        }
    }

    fn put_of(&mut self, done: IoResult<()>) -> Put
        ensures name { self.new.name ≡ self.old.name }
        ensures cause { Counts (put_fails result) self.old.count self.new.count }
        ensures memory { result ≢ Put.NoMemory }
    {
        match done {
            Ok(()) => Put::Done,
            Err(_) => {
                self.fail();
                Put::Failed
            }
        }
    }
}

impl<R: Files + Drop> Device for FolderDevice<R> {
    ghost use Rattle.std.specs.Prelude.{None};

    ghost named = { λ d. d.name };

    ghost told = { λ _. None };

    ghost faults = { λ d. d.count };

    fn name(&self) -> &[u8] {
        self.name.as_slice()
    }

    fn open_file(&mut self, file: &[u8], how: How) -> Opened {
        match self.try_open(file, how) {
            Ok(()) => Opened::Ready,
            Err(error) => match error.kind() {
                ErrorKind::OutOfMemory => Opened::NoMemory,
                ErrorKind::NotFound if how != How::Output => Opened::Missing,
                _ => {
                    self.fail();
                    Opened::Failed
                }
            },
        }
    }

    fn read_next(&mut self, file: &[u8], into: &mut [u8]) -> Got {
        match self.try_read(file, into) {
            Ok(0) if !into.is_empty() => Got::End,
            Ok(count) => Got::Bytes(count),
            Err(_) => {
                self.fail();
                Got::Failed
            }
        }
    }

    fn write_next(&mut self, file: &[u8], bytes: &[u8]) -> Put {
        let done = self.try_write(file, bytes);
        self.put_of(done)
    }

    fn rewrite_last(&mut self, file: &[u8], bytes: &[u8]) -> Put {
        let done = self.try_rewrite(file, bytes);
        self.put_of(done)
    }

    fn close_file(&mut self, file: &[u8]) -> Put {
        let done = self.try_close(file);
        self.put_of(done)
    }

    fn faults(&self) -> u64 {
        self.count
    }
}
