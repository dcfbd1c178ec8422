//! Each status, and a device that fails in each of its calls.

ghost use Rattle.std.specs.Prelude.{◌≡◌, ◌<◌, IsTrue, length, vec_len};

use cob_base::{NoMemory, Text, Word};
use cob_tree::{FileEntry, How};
use file_model::operations::{FileFault, close, close_open, open, read, rewrite, write};
use file_model::{Bench, Device, FileTable, MemDevice};
use std::alloc::{AllocError, Global};
use std::process::Abort;
use std::test::Fail;

const FAILED: u8 = 100;

// The status where the number of files or of rows in the table is wrong.
const LOST: u8 = 200;

fn text(alloc: Global, bytes: &[u8]) -> Result<Text, AllocError> {
    Ok(Text {
        bytes: Vec::from_slice(alloc, bytes)?,
    })
}

fn entry(alloc: Global, assign: &[u8]) -> Result<Option<FileEntry>, AllocError> {
    match Word::new(b"F") {
        None => Ok(None),
        Some(name) => Ok(Some(FileEntry {
            name,
            assign: text(alloc, assign)?,
            status: None,
        })),
    }
}

fn entries(alloc: Global, assigns: &[&[u8]]) -> Result<Vec<FileEntry>, AllocError> {
    let mut files = Vec::new(alloc);
    for assign in assigns {
        if let Some(file) = entry(alloc, assign)? {
            files.push(file)?;
        }
    }
    Ok(files)
}

// A device without files, of which the call with that number fails; 0 is none.
fn device(alloc: Global, name: &[u8], failing: u64) -> Result<MemDevice, AllocError> {
    let mut numbers = Vec::new(alloc);
    numbers.push(failing)?;
    Ok(MemDevice {
        name: text(alloc, name)?,
        files: Vec::new(alloc),
        calls: 0,
        failing: numbers,
        count: 0,
    })
}

fn bench_of(alloc: Global, names: &[&[u8]], failing: u64) -> Result<Bench, AllocError> {
    let mut devices: Vec<Box<dyn Device>> = Vec::new(alloc);
    for name in names {
        devices.push(Box::new(alloc, device(alloc, name, failing)?)?)?;
    }
    Ok(Bench::new(devices))
}

fn code(answer: Result<u8, FileFault>) -> u8 {
    match answer {
        Ok(status) => status,
        Err(FileFault::Device) => FAILED,
        Err(FileFault::NoMemory) => 101,
    }
}

// A program's files, with their table, on a bench.
#[derive(Drop)]
struct Desk {
    bench: Bench,
    table: FileTable,
    files: Vec<FileEntry>,
}

impl Desk {
    fn new(alloc: Global, bench: Bench, assigns: &[&[u8]]) -> Result<Desk, NoMemory> {
        let files = entries(alloc, assigns)?;
        let count = if assigns.len() < 100 {
            assigns.len() as u32
        } else {
            0
        };
        let table = FileTable::new(alloc, count)?;
        Ok(Desk {
            bench,
            table,
            files,
        })
    }

    fn has(&self, file: u32) -> bool
        ensures { IsTrue result → (length self.now.table.rows ≡ vec_len self.now.files)
            × (vec_len self.now.files < 100) × (file < vec_len self.now.files) }
    {
        let files = self.files.len();
        self.table.rows.len() == files && files < 100 && (file as usize) < files
    }

    fn open(&mut self, file: u32, how: How) -> u8 {
        if !self.has(file) {
            return LOST;
        }
        code(open(
            &mut self.bench,
            &mut self.table,
            self.files.as_slice(),
            file,
            how,
        ))
    }

    fn close(&mut self, file: u32) -> u8 {
        if !self.has(file) {
            return LOST;
        }
        code(close(
            &mut self.bench,
            &mut self.table,
            self.files.as_slice(),
            file,
        ))
    }

    fn read(&mut self, file: u32, into: &mut [u8]) -> u8 {
        if !self.has(file) {
            return LOST;
        }
        code(read(
            &mut self.bench,
            &mut self.table,
            self.files.as_slice(),
            file,
            into,
        ))
    }

    fn write(&mut self, file: u32, bytes: &[u8]) -> u8 {
        if !self.has(file) {
            return LOST;
        }
        code(write(
            &mut self.bench,
            &mut self.table,
            self.files.as_slice(),
            file,
            bytes,
        ))
    }

    fn rewrite(&mut self, file: u32, bytes: &[u8]) -> u8 {
        if !self.has(file) {
            return LOST;
        }
        code(rewrite(
            &mut self.bench,
            &mut self.table,
            self.files.as_slice(),
            file,
            bytes,
        ))
    }

    // Whether a device failed as the open files were closed.
    fn close_open(&mut self) -> bool {
        self.has(0) && close_open(&mut self.bench, &mut self.table, self.files.as_slice())
    }

    fn is_at(&self, at: usize, name: &[u8], faults: u64) -> bool {
        match self.bench.devices.get(at) {
            None => false,
            Some(device) => device.name() == name && device.faults() == faults,
        }
    }
}

/// A call of a program on one of its files, or the closing of all open files.
#[derive(Clone, Copy)]
enum Call {
    Open(How),
    Close,
    Read,
    Write(&'static [u8]),
    Rewrite(&'static [u8]),
    Finish,
}

impl Desk {
    // The status of a call; of the closing of all files, whether a device failed.
    fn call(&mut self, file: u32, call: Call, into: &mut [u8]) -> u8 {
        match call {
            Call::Open(how) => self.open(file, how),
            Call::Close => self.close(file),
            Call::Read => self.read(file, into),
            Call::Write(bytes) => self.write(file, bytes),
            Call::Rewrite(bytes) => self.rewrite(file, bytes),
            Call::Finish => { if self.close_open() { FAILED } else { 0 } }
        }
    }
}

/// A file, a call on it, the status that comes, and the record that is then held.
type Step = (u32, Call, u8, &'static [u8; 4]);

fn check(rt: &impl Abort, desk: &mut Desk, steps: &[Step]) {
    let mut record = [b'?'; 4];
    for (at, step) in steps.iter().enumerate() {
        let (file, call, status, held) = *step;
        let came = desk.call(file, call, &mut record);
        assert_eq!(rt; (at, came, record), (at, status, *held));
    }
}

const STATUSES: [Step; 31] = [
    (0, Call::Close, 42, b"????"),
    (0, Call::Read, 47, b"????"),
    (0, Call::Write(b"one "), 48, b"????"),
    (0, Call::Rewrite(b"one "), 49, b"????"),
    (0, Call::Open(How::Input), 35, b"????"),
    (2, Call::Open(How::Output), 30, b"????"),
    (3, Call::Open(How::Output), 30, b"????"),
    (4, Call::Open(How::Output), 30, b"????"),
    (0, Call::Open(How::Output), 0, b"????"),
    (0, Call::Open(How::Output), 41, b"????"),
    (1, Call::Open(How::Output), 30, b"????"),
    (0, Call::Read, 47, b"????"),
    (0, Call::Write(b"one "), 0, b"????"),
    (0, Call::Close, 0, b"????"),
    (1, Call::Open(How::Extend), 0, b"????"),
    (1, Call::Write(b"tw"), 0, b"????"),
    (1, Call::Close, 0, b"????"),
    (0, Call::Open(How::InOut), 0, b"????"),
    (0, Call::Rewrite(b"two "), 43, b"????"),
    (0, Call::Write(b"two "), 48, b"????"),
    (0, Call::Read, 0, b"one "),
    (0, Call::Read, 0, b"tw  "),
    (0, Call::Rewrite(b"2222"), 0, b"tw  "),
    (0, Call::Rewrite(b"2222"), 43, b"tw  "),
    (0, Call::Read, 10, b"tw  "),
    (0, Call::Read, 46, b"tw  "),
    (0, Call::Finish, 0, b"tw  "),
    (1, Call::Open(How::Input), 0, b"tw  "),
    (1, Call::Rewrite(b"2222"), 49, b"tw  "),
    (1, Call::Read, 0, b"one "),
    (1, Call::Read, 0, b"2222"),
];

#[test]
fn each_status_comes(rt: HostRuntime) -> Result<(), Fail> {
    let alloc = rt.alloc();
    let bench = bench_of(alloc, &[b"TAPE", b"DISK"], 0)?;
    let mut d = Desk::new(
        alloc,
        bench,
        &[b"A", b"DISK:A", b"OTHER:A", b".A", b"TAPE:A:B"],
    )?;
    check(&rt, &mut d, &STATUSES);
    assert!(rt; d.bench.left == 2);
    Ok(())
}

/// A file is written, and its record is put back.
const CALLS: [Call; 6] = [
    Call::Open(How::Output),
    Call::Write(b"x"),
    Call::Close,
    Call::Open(How::InOut),
    Call::Read,
    Call::Rewrite(b"y"),
];

// What these calls come to, where the device fails in the one with that number; and whether a
// device fails in closing, or how many are left.
fn walk(alloc: Global, failing: u64) -> Result<[u8; 7], NoMemory> {
    let bench = bench_of(alloc, &[b"TAPE", b"DISK", b"LAST"], failing)?;
    let mut d = Desk::new(alloc, bench, &[b"A", b"TAPE:A"])?;
    let mut record = [b'?'; 1];
    let mut came = [0; 7];
    for (status, call) in came.iter_mut().zip(CALLS.iter()) {
        *status = d.call(0, *call, &mut record);
    }
    came[6] = if d.close_open() { FAILED } else { left_of(&d) };
    Ok(came)
}

fn left_of(desk: &Desk) -> u8 {
    if desk.bench.left < 100 {
        desk.bench.left as u8
    } else {
        LOST
    }
}

#[test]
fn a_failed_device_is_taken_off(rt: HostRuntime) -> Result<(), Fail> {
    let wanted = [
        [0, 0, 0, 0, 0, 0, 3],
        [100, 48, 42, 30, 47, 49, 2],
        [0, 100, 42, 30, 47, 49, 2],
        [0, 0, 100, 30, 47, 49, 2],
        [0, 0, 0, 100, 47, 49, 2],
        [0, 0, 0, 0, 100, 49, 2],
        [0, 0, 0, 0, 0, 100, 2],
        [0, 0, 0, 0, 0, 0, 100],
    ];
    for (failing, want) in wanted.iter().enumerate() {
        assert!(rt; walk(rt.alloc(), failing as u64)? == *want, "at {failing}");
    }
    Ok(())
}

const OTHERS: [Step; 8] = [
    (0, Call::Open(How::Output), 0, b"????"),
    (2, Call::Open(How::Output), 0, b"????"),
    (1, Call::Open(How::Output), 0, b"????"),
    (0, Call::Write(b"x"), FAILED, b"????"),
    (1, Call::Write(b"x"), 48, b"????"),
    (2, Call::Write(b"x"), 0, b"????"),
    (0, Call::Open(How::Input), 35, b"????"),
    (1, Call::Open(How::Output), 0, b"????"),
];

#[test]
fn the_next_device_of_a_name_takes_over(rt: HostRuntime) -> Result<(), Fail> {
    let alloc = rt.alloc();
    let bench = bench_of(alloc, &[b"DISK", b"TAPE", b"DISK"], 3)?;
    let mut d = Desk::new(alloc, bench, &[b"A", b"B", b"TAPE:A"])?;
    check(&rt, &mut d, &OTHERS);
    assert!(rt; d.bench.left == 2);
    assert!(rt; d.is_at(0, b"TAPE", 0));
    assert!(rt; d.is_at(2, b"DISK", 1));
    assert!(rt; d.close_open());
    assert!(rt; d.bench.left == 0);
    assert!(rt; d.is_at(1, b"DISK", 1));
    assert!(rt; d.is_at(2, b"DISK", 1));
    Ok(())
}
