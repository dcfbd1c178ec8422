//! What statements on files did, where it is kept.
//!
//! A step makes either several operations that move no bytes, or one that moves a record. So the
//! operations are kept without bytes, beside the one record: nothing is copied.

ghost use Rattle.std.specs.Prelude.{◌≡◌, ◌<◌, ◌++◌, ◌∷◌, [], IfOk, IsTrue, vec_capacity, vec_len};
ghost use Rattle.cob_act.specs.files.Work.{bytes_moved};

use cob_base::NoMemory;
use std::alloc::Global;

/// What is done with a file.
#[derive(Clone, Copy, Debug, PartialEq, Eq)]
pub enum FileVerb {
    Open,
    Read,
    Write,
    Rewrite,
    Close,
}

/// An operation on a file that was done.
#[derive(Clone, Copy, Debug, PartialEq, Eq)]
pub struct FileDone {
    pub verb: FileVerb,
    pub file: u32,
    pub status: u8,
}

/// What statements on files move, and what they did.
#[derive(Drop)]
pub struct FileWork {
    /// Room for what a MOVE moves.
    pub scratch: Vec<u8>,
    /// The record that was read or written last.
    pub bytes: Vec<u8>,
    /// The operations of this step, where they are kept.
    pub done: Vec<FileDone>,
    /// Whether operations are kept.
    pub keeps: bool,
}

impl FileWork {
    /// Room for statements on files, whose operations aren't kept.
    pub fn new(alloc: Global) -> FileWork
        ensures none { result.done.items ≡ [] }
    {
        FileWork {
            scratch: Vec::new(alloc),
            bytes: Vec::new(alloc),
            done: Vec::new(alloc),
            keeps: false,
        }
    }

    /// Lets the operations go that were kept.
    pub fn clear(&mut self)
        ensures none { self.new.done.items ≡ [] }
        ensures keeps { self.new.keeps ≡ self.old.keeps }
    {
        self.done.clear();
    }

    /// Makes room for an operation, where it is to be kept.
    pub fn ready(&mut self) -> Result<(), NoMemory>
        ensures room { IfOk result (λ u. IsTrue self.old.keeps →
            vec_len self.new.done < vec_capacity self.new.done) }
        ensures done { self.new.done.items ≡ self.old.done.items }
        ensures bytes { self.new.bytes ≡ self.old.bytes }
        ensures keeps { self.new.keeps ≡ self.old.keeps }
    {
        if self.keeps {
            self.done.reserve(1)?;
        }
        Ok(())
    }

    /// Keeps an operation, where operations are kept; there is room for it.
    pub fn note(&mut self, verb: FileVerb, file: u32, status: u8)
        requires room { IsTrue self.old.keeps → vec_len self.old.done < vec_capacity self.old.done }
        ensures done { IsTrue self.old.keeps → self.new.done.items ≡ self.old.done.items
            ++ record { verb = verb; file = file; status = status } ∷ [] }
        ensures bytes { self.new.bytes ≡ self.old.bytes }
        ensures keeps { self.new.keeps ≡ self.old.keeps }
    {
        if self.keeps {
            match self.done.push(FileDone { verb, file, status }) {
                Ok(()) => {}
                Err(_) => unreachable!(),
            }
        }
    }

    /// The bytes that an operation of this step moved.
    pub fn bytes_of(&self, done: FileDone) -> &[u8]
        ensures { result.now ≡ bytes_moved done.verb done.status self.now.bytes.items }
    {
        match done.verb {
            FileVerb::Open => &[],
            FileVerb::Close => &[],
            _ => {
                if done.status == 0 {
                    self.bytes.as_slice()
                } else {
                    &[]
                }
            }
        }
    }
}
