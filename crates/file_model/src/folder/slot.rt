//! A writer that gets its file later, so that its buffer is allocated before anything in the folder
//! changes.

use std::io::{Error, ErrorKind, Result as IoResult, Write};

/// A writer, once it has its file.
#[derive(Drop)]
pub struct Slot<F> {
    pub file: Option<F>,
}

impl<F: Write> Write for Slot<F> {
    fn write(&mut self, bytes: &[u8]) -> IoResult<usize> {
        match &mut self.file {
            Some(file) => file.write(bytes),
            None => Err(Error::from(ErrorKind::NotFound)),
        }
    }

    fn flush(&mut self) -> IoResult<()> {
        match &mut self.file {
            Some(file) => file.flush(),
            None => Ok(()),
        }
    }
}
