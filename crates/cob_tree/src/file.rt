//! Files.

use crate::place::Place;
use cob_base::{Copied, NoMemory, Text, Word};
use std::alloc::Global;

/// A file: its SELECT and its FD.
#[derive(Debug)]
pub struct FileEntry {
    pub name: Word,
    /// The device's name for it.
    pub assign: Text,
    /// The item that takes the status of each operation.
    pub status: Option<Place>,
}

/// How a file is opened.
#[derive(Clone, Copy, Debug, PartialEq, Eq)]
pub enum How {
    Input,
    Output,
    InOut,
    Extend,
}

/// A file that OPEN names.
#[derive(Clone, Copy, Debug, PartialEq, Eq)]
pub struct Opening {
    pub how: How,
    /// The file, by its place among the files.
    pub file: u32,
}

impl Drop for FileEntry {
    fn drop(self) {
        let FileEntry {
            name: _,
            assign: _,
            status: _,
        } = self;
    }
}

impl Copied for FileEntry {
    fn copy(&self, alloc: Global) -> Result<FileEntry, NoMemory> {
        Ok(FileEntry {
            name: self.name,
            assign: self.assign.copy(alloc)?,
            status: self.status.copy(alloc)?,
        })
    }
}

impl Copied for Opening {
    fn copy(&self, _alloc: Global) -> Result<Opening, NoMemory> {
        Ok(*self)
    }
}
