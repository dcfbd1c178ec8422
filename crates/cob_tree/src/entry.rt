//! Entries of the data division.

use crate::picture::{Picture, Sign, Usage};
use crate::place::Operand;
use cob_base::{Copied, Items, NoMemory, Word};
use std::alloc::Global;

/// A data description entry.
#[derive(Debug)]
pub struct Entry {
    pub level: u8,
    /// None for FILLER.
    pub name: Option<Word>,
    /// The file to whose FD it belongs, by its place among the files.
    pub file: Option<u32>,
    /// The entry that it redefines.
    pub redefines: Option<u32>,
    pub picture: Option<Picture>,
    pub sign: Sign,
    pub usage: Usage,
    pub occurs: Option<u32>,
    pub value: Option<Operand>,
    /// The values of a condition name, an entry of level 88.
    pub ranges: Items<Span>,
}

/// A value of a condition name, or all from one to another.
#[derive(Debug)]
pub struct Span {
    pub from: Operand,
    pub to: Option<Operand>,
}

impl Drop for Entry {
    fn drop(self) {
        let Entry {
            level: _,
            name: _,
            file: _,
            redefines: _,
            picture: _,
            sign: _,
            usage: _,
            occurs: _,
            value: _,
            ranges: _,
        } = self;
    }
}

impl Drop for Span {
    fn drop(self) {
        let Span { from: _, to: _ } = self;
    }
}

impl Copied for Entry {
    fn copy(&self, alloc: Global) -> Result<Entry, NoMemory> {
        Ok(Entry {
            level: self.level,
            name: self.name,
            file: self.file,
            redefines: self.redefines,
            picture: self.picture,
            sign: self.sign,
            usage: self.usage,
            occurs: self.occurs,
            value: self.value.copy(alloc)?,
            ranges: self.ranges.copy(alloc)?,
        })
    }
}

impl Copied for Span {
    fn copy(&self, alloc: Global) -> Result<Span, NoMemory> {
        Ok(Span {
            from: self.from.copy(alloc)?,
            to: self.to.copy(alloc)?,
        })
    }
}
