//! A file of the folder that is open.

ghost use Rattle.std.specs.Prelude.{◌≡◌, ◌≤◌, length, IfOk};

use crate::folder::slot::Slot;
use cob_base::Text;
use cob_tree::How;
use std::alloc::Global;
use std::fs::{Files, OpenOptions};
use std::io::{
    BufReader, BufWriter, Error, ErrorKind, Read, Result as IoResult, Seek, SeekFrom, Write,
};

/// An open file by what is done with it: where a record may be rewritten, nothing is read ahead.
#[derive(Drop)]
pub enum Handle<F: Read + Write + Seek + Drop> {
    Input(BufReader<F>),
    Output(BufWriter<Slot<F>>),
    InOut(F),
}

/// An open file, and where its records begin.
#[derive(Drop)]
pub struct FolderFile<F: Read + Write + Seek + Drop> {
    pub name: Text,
    handle: Handle<F>,
    /// Where the next record begins, in bytes.
    at: u64,
    /// Where the record that was read last begins; none where none was read.
    last: Option<u64>,
}

fn for_input<R: Files>(alloc: Global, folder: &R, path: &str) -> IoResult<Handle<R::File>> {
    let file = OpenOptions::new().read(true).open(folder, path)?;
    Ok(Handle::Input(BufReader::new(alloc, file)?))
}

fn for_both<R: Files>(folder: &R, path: &str) -> IoResult<Handle<R::File>> {
    let file = OpenOptions::new()
        .read(true)
        .write(true)
        .open(folder, path)?;
    Ok(Handle::InOut(file))
}

// Opens a file for output: OUTPUT makes or empties it, EXTEND needs it to exist.
fn for_output<R: Files>(
    alloc: Global,
    folder: &R,
    path: &str,
    extend: bool,
) -> IoResult<Handle<R::File>> {
    let mut writer = BufWriter::new(alloc, Slot { file: None })?;
    let file = if extend {
        OpenOptions::new().append(true).open(folder, path)?
    } else {
        OpenOptions::new()
            .write(true)
            .create(true)
            .truncate(true)
            .open(folder, path)?
    };
    writer.get_mut().file = Some(file);
    Ok(Handle::Output(writer))
}

fn handle_for<R: Files>(
    alloc: Global,
    folder: &R,
    path: &str,
    how: How,
) -> IoResult<Handle<R::File>> {
    match how {
        How::Input => for_input(alloc, folder, path),
        How::Output => for_output(alloc, folder, path, false),
        How::InOut => for_both(folder, path),
        How::Extend => for_output(alloc, folder, path, true),
    }
}

const PIECE: usize = 512;

// Reads until the buffer is full or the file ends. What a reader leaves in a buffer when it says
// that it gave nothing isn't known, so the bytes are read into a separate buffer.
fn fill<F: Read>(file: &mut F, into: &mut [u8]) -> IoResult<usize>
    ensures bound { IfOk result (λ n. n ≤ length into.old) }
    ensures ungiven { IfOk result (λ n. n ≡ 0 → into.new ≡ into.old) }
{
    let mut piece = [0u8; PIECE];
    let size = into.len();
    let mut count = 0usize;
    for _ in 0..u64::MAX {
        if count >= size {
            return Ok(size);
        }
        let room = (size - count).min(PIECE);
        match file.read(&mut piece[..room]) {
            Ok(0) => return Ok(count),
            Ok(more) => {
                into[count..count + more].copy_from_slice(&piece[..more]);
                count += more;
            }
            Err(error) if error.kind() == ErrorKind::Interrupted => {}
            Err(error) => return Err(error),
        }
    }
    Err(Error::from(ErrorKind::Other))
}

impl<F: Read + Write + Seek + Drop> FolderFile<F> {
    /// Opens the file at this path of the folder; InvalidInput where the name isn't text.
    pub fn open<R: Files<File = F>>(
        alloc: Global,
        folder: &R,
        name: &[u8],
        how: How,
    ) -> IoResult<FolderFile<F>> {
        let Ok(path) = str::from_utf8(name) else {
            return Err(Error::from(ErrorKind::InvalidInput));
        };
        let mut text = Text::new(alloc);
        if text.add(name).is_err() {
            return Err(Error::from(ErrorKind::OutOfMemory));
        }
        Ok(FolderFile {
            name: text,
            handle: handle_for(alloc, folder, path, how)?,
            at: 0,
            last: None,
        })
    }

    /// Puts what comes next at the front of `into`, and answers how many bytes there were.
    pub fn read(&mut self, into: &mut [u8]) -> IoResult<usize>
        ensures bound { IfOk result (λ n. n ≤ length into.old) }
        ensures ungiven { IfOk result (λ n. n ≡ 0 → into.new ≡ into.old) }
    {
        let count = match &mut self.handle {
            Handle::Input(reader) => fill(reader, into)?,
            Handle::InOut(file) => fill(file, into)?,
            Handle::Output(_) => return Err(Error::from(ErrorKind::InvalidInput)),
        };
        if count > 0 {
            self.last = Some(self.at);
            self.at = self.at.saturating_add(count as u64);
        }
        Ok(count)
    }

    /// Adds bytes after those that were written; InvalidInput where the file isn't open for output.
    pub fn write(&mut self, bytes: &[u8]) -> IoResult<()> {
        match &mut self.handle {
            Handle::Output(writer) => writer.write_all(bytes),
            Handle::Input(_) => Err(Error::from(ErrorKind::InvalidInput)),
            Handle::InOut(_) => Err(Error::from(ErrorKind::InvalidInput)),
        }
    }

    /// Replaces the record that was read last; InvalidInput where there is none, or the file isn't
    /// open for I-O.
    pub fn rewrite(&mut self, bytes: &[u8]) -> IoResult<()> {
        let Handle::InOut(file) = &mut self.handle else {
            return Err(Error::from(ErrorKind::InvalidInput));
        };
        let Some(last) = self.last else {
            return Err(Error::from(ErrorKind::InvalidInput));
        };
        file.seek(SeekFrom::Start(last))?;
        file.write_all(bytes)?;
        self.at = last.saturating_add(bytes.len() as u64);
        Ok(())
    }

    /// Writes out what is buffered.
    pub fn finish(&mut self) -> IoResult<()> {
        match &mut self.handle {
            Handle::Output(writer) => writer.flush(),
            Handle::Input(_) => Ok(()),
            Handle::InOut(_) => Ok(()),
        }
    }
}
