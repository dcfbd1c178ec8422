//! The state of the files of a program.

ghost use Rattle.std.specs.Prelude.{◌≡◌, ◌<◌, length, replicate, slice_set, IfSome, slice_get};
ghost use Rattle.cob_base.specs.Answers.{Makes};
ghost use Rattle.file_model.specs.Status.{can_read, can_write, closed_row, is_in_out, may_close, may_open, may_read, may_rewrite, may_write, opened_row, other_row, read_row};

use cob_base::{Items, NoMemory};
use cob_tree::How;
use std::alloc::Global;

/// The state of a file, as the operations so far leave it.
#[derive(Clone, Copy, Debug, PartialEq, Eq)]
pub struct FileRow {
    /// How it is open.
    pub how: Option<How>,
    /// Whether a READ came to the end since it was opened.
    pub ended: bool,
    /// Whether the last operation was a READ that gave a record.
    pub has_record: bool,
}

const CLOSED: FileRow = FileRow {
    how: None,
    ended: false,
    has_record: false,
};

fn can_read(how: Option<How>) -> bool
    ensures { result ≡ can_read how }
{
    match how {
        None => false,
        Some(How::Input) => true,
        Some(How::Output) => false,
        Some(How::InOut) => true,
        Some(How::Extend) => false,
    }
}

fn can_write(how: Option<How>) -> bool
    ensures { result ≡ can_write how }
{
    match how {
        None => false,
        Some(How::Input) => false,
        Some(How::Output) => true,
        Some(How::InOut) => false,
        Some(How::Extend) => true,
    }
}

fn is_in_out(how: Option<How>) -> bool
    ensures { result ≡ is_in_out how }
{
    match how {
        None => false,
        Some(How::Input) => false,
        Some(How::Output) => false,
        Some(How::InOut) => true,
        Some(How::Extend) => false,
    }
}

impl FileRow {
    fn may_open(self) -> u8
        ensures { result ≡ may_open self }
    {
        if self.how.is_some() { 41 } else { 0 }
    }

    fn may_read(self) -> u8
        ensures { result ≡ may_read self }
    {
        if !can_read(self.how) {
            47
        } else if self.ended {
            46
        } else {
            0
        }
    }

    fn may_write(self) -> u8
        ensures { result ≡ may_write self }
    {
        if can_write(self.how) { 0 } else { 48 }
    }

    fn may_rewrite(self) -> u8
        ensures { result ≡ may_rewrite self }
    {
        if !is_in_out(self.how) {
            49
        } else if self.has_record {
            0
        } else {
            43
        }
    }

    fn may_close(self) -> u8
        ensures { result ≡ may_close self }
    {
        if self.how.is_some() { 0 } else { 42 }
    }
}

/// The state of each file of a program, by its place among the files.
#[derive(Debug, Drop)]
pub struct FileTable {
    pub rows: Items<FileRow>,
}

impl FileTable {
    /// So many files, none of them open.
    pub fn new(alloc: Global, files: u32) -> Result<FileTable, NoMemory>
        ensures { Makes (record { rows = replicate files closed_row }) result }
    {
        let rows = vec![in alloc; CLOSED; files as usize]?;
        Ok(FileTable {
            rows: Items::from_vec(rows),
        })
    }

    fn row(&self, file: u32) -> FileRow
        requires { file < length self.now.rows }
        ensures { slice_get self.now.rows file ≡ Some result }
    {
        self.rows.as_slice()[file as usize]
    }

    /// 0, or the status that OPEN has before a device is called.
    pub fn may_open(&self, file: u32) -> u8
        requires { file < length self.now.rows }
        ensures { IfSome (slice_get self.now.rows file) (λ row. result ≡ may_open row) }
    {
        self.row(file).may_open()
    }

    /// 0, or the status that READ has before a device is called.
    pub fn may_read(&self, file: u32) -> u8
        requires { file < length self.now.rows }
        ensures { IfSome (slice_get self.now.rows file) (λ row. result ≡ may_read row) }
    {
        self.row(file).may_read()
    }

    /// 0, or the status that WRITE has before a device is called.
    pub fn may_write(&self, file: u32) -> u8
        requires { file < length self.now.rows }
        ensures { IfSome (slice_get self.now.rows file) (λ row. result ≡ may_write row) }
    {
        self.row(file).may_write()
    }

    /// 0, or the status that REWRITE has before a device is called.
    pub fn may_rewrite(&self, file: u32) -> u8
        requires { file < length self.now.rows }
        ensures { IfSome (slice_get self.now.rows file) (λ row. result ≡ may_rewrite row) }
    {
        self.row(file).may_rewrite()
    }

    /// 0, or the status that CLOSE has before a device is called.
    pub fn may_close(&self, file: u32) -> u8
        requires { file < length self.now.rows }
        ensures { IfSome (slice_get self.now.rows file) (λ row. result ≡ may_close row) }
    {
        self.row(file).may_close()
    }

    /// Notes that a file was opened.
    pub fn note_open(&mut self, file: u32, how: How)
        requires { file < length self.old.rows }
        ensures { self.new.rows ≡ slice_set self.old.rows file (opened_row how) }
    {
        let row = FileRow {
            how: Some(how),
            ended: false,
            has_record: false,
        };
        self.rows.put(file as usize, row);
    }

    /// Notes that a READ gave a record, or came to the end.
    pub fn note_read(&mut self, file: u32, ended: bool)
        requires { file < length self.old.rows }
        ensures { IfSome (slice_get self.old.rows file)
            (λ row. self.new.rows ≡ slice_set self.old.rows file (read_row ended row)) }
    {
        let row = self.row(file);
        self.rows.put(
            file as usize,
            FileRow {
                ended,
                has_record: !ended,
                ..row
            },
        );
    }

    /// Notes any other operation, also one that was refused.
    pub fn note_other(&mut self, file: u32)
        requires { file < length self.old.rows }
        ensures { IfSome (slice_get self.old.rows file)
            (λ row. self.new.rows ≡ slice_set self.old.rows file (other_row row)) }
    {
        let row = self.row(file);
        self.rows.put(
            file as usize,
            FileRow {
                has_record: false,
                ..row
            },
        );
    }

    /// Notes that a file was closed.
    pub fn note_close(&mut self, file: u32)
        requires { file < length self.old.rows }
        ensures { self.new.rows ≡ slice_set self.old.rows file closed_row }
    {
        self.rows.put(file as usize, CLOSED);
    }
}
