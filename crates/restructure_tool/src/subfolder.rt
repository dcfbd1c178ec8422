//! A folder inside of the one in which the program runs.
//!
//! It is at the edge of what is proved, as the device over it: nothing is known of what its files
//! hold.

use std::alloc::{Allocator, Global};
use std::fs::{Files, Metadata, OpenOptions};
use std::io::{Error, ErrorKind, Result as IoResult};

/// The files in a folder inside of another one. They are opened alone: whatever else `Files`
/// offers is answered as unsupported.
#[derive(Drop)]
pub struct Subfolder<R: Files + Drop> {
    pub alloc: Global,
    pub outer: R,
    /// The folder's name.
    pub name: &'static str,
}

fn unsupported<A>() -> IoResult<A> {
    Err(Error::from(ErrorKind::Unsupported))
}

impl<R: Files + Drop> Files for Subfolder<R> {
    type File = R::File;

    type Dir = R::Dir;

    fn open_file(&self, how: &OpenOptions, path: &str) -> IoResult<R::File> {
        let name = self.name;
        let inside = format!(in self.alloc; "{name}/{path}")?;
        self.outer.open_file(how, inside.as_str())
    }

    fn open_dir(&self, _path: &str) -> IoResult<R::Dir> {
        unsupported()
    }

    fn metadata(&self, _path: &str) -> IoResult<Metadata> {
        unsupported()
    }

    fn symlink_metadata(&self, _path: &str) -> IoResult<Metadata> {
        unsupported()
    }

    fn copy(&self, _from: &str, _to: &str) -> IoResult<u64> {
        unsupported()
    }

    fn rename(&self, _from: &str, _to: &str) -> IoResult<()> {
        unsupported()
    }

    fn remove_file(&self, _path: &str) -> IoResult<()> {
        unsupported()
    }

    fn create_dir(&self, _path: &str) -> IoResult<()> {
        unsupported()
    }

    fn remove_dir(&self, _path: &str) -> IoResult<()> {
        unsupported()
    }

    fn remove_dir_all<B: Allocator>(&self, _alloc: B, _path: &str) -> IoResult<()> {
        unsupported()
    }
}
