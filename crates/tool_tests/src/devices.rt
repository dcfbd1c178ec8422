//! Programs with files, run over devices in memory.

use crate::calls::{Case, PLAIN, check_bytes, text};
use cob_tree::How;
use file_model::{Bench, Device, Got, MemDevice, MemFile, NullDevice, Opened};
use restructure_asks::Status;
use std::alloc::{AllocError, Global};
use std::process::Abort;
use std::test::Fail;

/// What comes before the files of a program.
const HEAD: &str = "       IDENTIFICATION DIVISION.
       PROGRAM-ID. T.
       ENVIRONMENT DIVISION.
       INPUT-OUTPUT SECTION.
       FILE-CONTROL.
";

/// What comes between its files and its statements.
const RECORD: &str = "       DATA DIVISION.
       FILE SECTION.
       FD F.
       01 R PIC X(4).
       WORKING-STORAGE SECTION.
       77 FS PIC X(2).
       PROCEDURE DIVISION.
";

const SHOWING: (&str, &str) = (
    "           SELECT F ASSIGN TO \"IN.DAT\".\n",
    "       START-UP.
           OPEN INPUT F.
       NEXT-ONE.
           READ F AT END GO TO DONE.
           DISPLAY R.
           GO TO NEXT-ONE.
       DONE.
           CLOSE F.
           STOP RUN.
",
);

const LOOKING: (&str, &str) = (
    "           SELECT F ASSIGN TO \"NO.DAT\" FILE STATUS IS FS.\n",
    "       A. OPEN INPUT F. DISPLAY FS. STOP RUN.\n",
);

const UNNAMED: (&str, &str) = (
    "           SELECT F ASSIGN TO \".DAT\".\n",
    "       A. OPEN OUTPUT F. STOP RUN.\n",
);

const LEAVING: (&str, &str) = (
    "           SELECT F ASSIGN TO \"IN.DAT\".\n",
    "       A. OPEN INPUT F. STOP RUN.\n",
);

const TRYING: (&str, &str) = (
    "           SELECT F ASSIGN TO \"NEW.DAT\" FILE STATUS IS FS.\n",
    "       A.
           CLOSE F. DISPLAY FS.
           OPEN INPUT F. DISPLAY FS.
           OPEN OUTPUT F. DISPLAY FS.
           OPEN OUTPUT F. DISPLAY FS.
           WRITE R FROM \"AB\". DISPLAY FS.
           REWRITE R. DISPLAY FS.
           CLOSE F. DISPLAY FS.
           OPEN I-O F. REWRITE R. DISPLAY FS.
           MOVE \"X\" TO R.
           READ F NOT AT END DISPLAY R.
           REWRITE R FROM \"C\". DISPLAY FS.
           WRITE R. DISPLAY FS.
           READ F AT END DISPLAY \"END\" NOT AT END DISPLAY R.
           READ F. DISPLAY \"NEVER\".
",
);

const LISTING: (&str, &str) = (
    "       IDENTIFICATION DIVISION.
       PROGRAM-ID. PAYLIST.
       ENVIRONMENT DIVISION.
       INPUT-OUTPUT SECTION.
       FILE-CONTROL.
           SELECT PAY-FILE ASSIGN TO \"PAY.DAT\" FILE STATUS IS PAY-STAT.
           SELECT LIST-FILE ASSIGN TO \"",
    "\".
       DATA DIVISION.
       FILE SECTION.
       FD PAY-FILE LABEL RECORDS ARE STANDARD.
       01 PAY-REC.
           05 PAY-NAME PIC X(6).
           05 PAY-HOURS PIC 99.
           05 PAY-RATE PIC 99V99.
       FD LIST-FILE.
       01 LIST-REC.
           05 LIST-NAME PIC X(6).
           05 LIST-GROSS PIC 9(5)V99.
       WORKING-STORAGE SECTION.
       77 PAY-STAT PIC XX.
       77 TOTAL-GROSS PIC 9(7)V99 VALUE 0.
       77 SKIPPED PIC 9(4) VALUE 0.
       PROCEDURE DIVISION.
       MAIN-CONTROL SECTION.
       BEGIN-RUN.
           OPEN INPUT PAY-FILE.
           IF PAY-STAT NOT = \"00\"
               DISPLAY \"NO PAY FILE\"
               GO TO END-RUN.
           OPEN OUTPUT LIST-FILE.
       NEXT-PAY.
           READ PAY-FILE AT END GO TO TOTALS.
           PERFORM LIST-ONE.
           GO TO NEXT-PAY.
       TOTALS.
           DISPLAY \"TOTAL \" TOTAL-GROSS \" SKIPPED \" SKIPPED.
           CLOSE PAY-FILE LIST-FILE.
       END-RUN.
           STOP RUN.
       LIST-ONE SECTION.
       CHECK-ONE.
           IF PAY-HOURS NOT NUMERIC OR PAY-RATE NOT NUMERIC
               GO TO BAD-ONE.
           MOVE PAY-NAME TO LIST-NAME.
           MULTIPLY PAY-HOURS BY PAY-RATE GIVING LIST-GROSS.
           ADD LIST-GROSS TO TOTAL-GROSS.
           WRITE LIST-REC.
           GO TO ONE-EXIT.
       BAD-ONE.
           ADD 1 TO SKIPPED.
       ONE-EXIT.
           EXIT.
",
);

const PAY: &str = "SMITH 401050JONES 0X2000";

const TOTAL: &str = "TOTAL 000042000 SKIPPED 0001\n";

const FAULT: &str = "DEVICE FAULT DISK\n";

// A device with one file, of which the call with that number fails; 0 is none.
fn device(
    alloc: Global,
    name: &str,
    file: (&str, &str),
    failing: u64,
) -> Result<MemDevice, AllocError> {
    let (file_name, bytes) = file;
    let held = MemFile {
        name: text(alloc, file_name.as_bytes())?,
        bytes: text(alloc, bytes.as_bytes())?,
        how: None,
        at: 0,
        last: None,
    };
    Ok(MemDevice {
        name: text(alloc, name.as_bytes())?,
        files: vec![in alloc; held]?,
        calls: 0,
        failing: vec![in alloc; failing]?,
        count: 0,
    })
}

// A status, what is displayed, and what is noted.
type Told = (Status, &'static str, &'static str);

// Runs a source over a bench, and compares what comes of it.
fn check(
    rt: &impl Abort,
    alloc: Global,
    source: &[u8],
    bench: &mut Bench,
    told: Told,
) -> Result<(), AllocError> {
    let (status, out, notes) = told;
    let case = Case {
        words: &["run", "--steps", "100"],
        status,
        out,
        notes,
        ..PLAIN
    };
    check_bytes(rt, alloc, &case, source, bench)
}

/// A run over a device DISK with one file, and how many devices are left on the bench.
#[derive(Clone, Copy)]
struct Run {
    program: (&'static str, &'static str),
    file: (&'static str, &'static str),
    failing: u64,
    told: Told,
    left: usize,
}

/// A reader, of which nothing fails.
const SHOWN: Run = Run {
    program: SHOWING,
    file: ("IN.DAT", "AAAABB"),
    failing: 0,
    told: (Status::Done, "AAAA\nBB  \n", ""),
    left: 1,
};

/// The reader, whose device fails in its first call.
const FAILED: Run = Run {
    failing: 1,
    told: (Status::DeviceFault, "", FAULT),
    left: 0,
    ..SHOWN
};

const RUNS: [Run; 12] = [
    SHOWN,
    Run {
        file: ("OTHER", ""),
        told: (Status::Abend, "", "ABEND IO 35\n"),
        ..SHOWN
    },
    Run {
        program: LOOKING,
        file: ("IN.DAT", ""),
        told: (Status::Done, "35\n", ""),
        ..SHOWN
    },
    Run {
        program: UNNAMED,
        file: ("IN.DAT", ""),
        told: (Status::Abend, "", "ABEND IO 30\n"),
        ..SHOWN
    },
    Run {
        program: TRYING,
        file: ("IN.DAT", ""),
        told: (
            Status::Abend,
            "42\n35\n00\n41\n00\n49\n00\n43\nAB  \n00\n48\nEND\n",
            "ABEND IO 46\n",
        ),
        ..SHOWN
    },
    Run {
        failing: 6,
        ..SHOWN
    },
    // the device fails as the run closes its files
    Run {
        program: LEAVING,
        failing: 2,
        told: (Status::DeviceFault, "", FAULT),
        left: 0,
        ..SHOWN
    },
    FAILED,
    Run {
        failing: 2,
        ..FAILED
    },
    Run {
        failing: 3,
        told: (Status::DeviceFault, "AAAA\n", FAULT),
        ..FAILED
    },
    Run {
        failing: 4,
        told: (Status::DeviceFault, "AAAA\nBB  \n", FAULT),
        ..FAILED
    },
    Run {
        failing: 5,
        told: (Status::DeviceFault, "AAAA\nBB  \n", FAULT),
        ..FAILED
    },
];

// Adds a device with one file, of which the call with that number fails.
fn add(
    alloc: Global,
    devices: &mut Vec<Box<dyn Device>>,
    name: &str,
    file: (&str, &str),
    failing: u64,
) -> Result<(), AllocError> {
    let device = device(alloc, name, file, failing)?;
    devices.push(Box::new(alloc, device)?)?;
    Ok(())
}

fn disk(alloc: Global, run: &Run) -> Result<Bench, AllocError> {
    let mut devices: Vec<Box<dyn Device>> = Vec::new(alloc);
    add(alloc, &mut devices, "DISK", run.file, run.failing)?;
    Ok(Bench::new(devices))
}

fn check_run(rt: &impl Abort, alloc: Global, run: &Run) -> Result<(), AllocError> {
    let mut bench = disk(alloc, run)?;
    check_over(rt, alloc, run, &mut bench)?;
    assert_eq!(rt; bench.left, run.left);
    Ok(())
}

fn check_over(
    rt: &impl Abort,
    alloc: Global,
    run: &Run,
    bench: &mut Bench,
) -> Result<(), AllocError> {
    let (files, statements) = run.program;
    let source = format!(in alloc; "{HEAD}{files}{RECORD}{statements}")?;
    check(rt, alloc, source.as_bytes(), bench, run.told)
}

#[test]
fn files_are_read_written_and_put_back(rt: HostRuntime) -> Result<(), Fail> {
    for run in &RUNS {
        check_run(&rt, rt.alloc(), run)?;
    }
    Ok(())
}

// The file of the list, which call of the disk fails, what is answered, how many devices are left,
// and which of them then has the list.
const LISTS: [(&str, u64, Told, usize, usize); 2] = [
    ("LIST.DAT", 0, (Status::Done, TOTAL, ""), 2, 0),
    ("OUT:LIST.DAT", 3, (Status::DeviceFault, "", FAULT), 1, 0),
];

// A device with the hours, of which the call with that number fails, and one whose fourth call
// fails.
fn disk_and_out(alloc: Global, failing: u64) -> Result<Bench, AllocError> {
    let mut devices: Vec<Box<dyn Device>> = Vec::new(alloc);
    add(alloc, &mut devices, "DISK", ("PAY.DAT", PAY), failing)?;
    add(alloc, &mut devices, "OUT", ("PAY.DAT", ""), 4)?;
    Ok(Bench::new(devices))
}

// The device has the list.
fn expect_list(rt: &impl Abort, device: &mut dyn Device) {
    let mut listed = [0u8; 13];
    assert!(rt; device.open_file(b"LIST.DAT", How::Input) == Opened::Ready);
    assert!(rt; device.read_next(b"LIST.DAT", &mut listed) == Got::Bytes(13));
    assert!(rt; listed.as_slice() == b"SMITH 0042000".as_slice());
}

// Runs the program that lists, into a file of that name.
fn check_listing(
    rt: &impl Abort,
    alloc: Global,
    list: &str,
    bench: &mut Bench,
    told: Told,
) -> Result<(), AllocError> {
    let (head, tail) = LISTING;
    let source = format!(in alloc; "{head}{list}{tail}")?;
    check(rt, alloc, source.as_bytes(), bench, told)
}

#[test]
fn a_listing_goes_to_its_device(rt: HostRuntime) -> Result<(), Fail> {
    for (list, failing, told, left, at) in LISTS {
        let mut bench = disk_and_out(rt.alloc(), failing)?;
        check_listing(&rt, rt.alloc(), list, &mut bench, told)?;
        assert_eq!(rt; bench.left, left);
        assert!(rt; at < bench.devices.len());
        let held = &mut *bench.devices[at];
        // It had three calls, so the next one fails where the fourth is to fail.
        if left == 1 {
            assert!(rt; held.open_file(b"LIST.DAT", How::Input) == Opened::Failed);
        }
        expect_list(&rt, held);
    }
    Ok(())
}

// A call of the disk, what is shown before it where it fails, and what is then in the list: OPEN of
// both files, READ, WRITE, READ of a record that isn't listed, READ at the end, and CLOSE of both.
const CALLS: [(u64, &str, Opened, Got); 8] = [
    (1, "", Opened::Missing, Got::End),
    (2, "", Opened::Missing, Got::End),
    (3, "", Opened::Ready, Got::End),
    (4, "", Opened::Ready, Got::End),
    (5, "", Opened::Ready, Got::Bytes(13)),
    (6, "", Opened::Ready, Got::Bytes(13)),
    (7, TOTAL, Opened::Ready, Got::Bytes(13)),
    (8, TOTAL, Opened::Ready, Got::Bytes(13)),
];

// The device has the hours as they were, and so much of the list.
fn expect_files(rt: &impl Abort, device: &mut dyn Device, opened: Opened, got: Got) {
    let mut hours = [0u8; 24];
    assert!(rt; device.open_file(b"PAY.DAT", How::Input) == Opened::Ready);
    assert!(rt; device.read_next(b"PAY.DAT", &mut hours) == Got::Bytes(24));
    assert!(rt; hours.as_slice() == PAY.as_bytes());
    let mut listed = [0u8; 20];
    assert!(rt; device.open_file(b"LIST.DAT", How::Input) == opened);
    assert!(rt; device.read_next(b"LIST.DAT", &mut listed) == got);
    if got == Got::Bytes(13) {
        assert!(rt; &listed[..13] == b"SMITH 0042000".as_slice());
    }
}

fn add_null(alloc: Global, devices: &mut Vec<Box<dyn Device>>) -> Result<(), AllocError> {
    let name = text(alloc, b"NULL")?;
    devices.push(Box::new(alloc, NullDevice { name })?)?;
    Ok(())
}

fn disk_and_null(alloc: Global, failing: u64) -> Result<Bench, AllocError> {
    let mut devices: Vec<Box<dyn Device>> = Vec::new(alloc);
    add(alloc, &mut devices, "DISK", ("PAY.DAT", PAY), failing)?;
    add_null(alloc, &mut devices)?;
    Ok(Bench::new(devices))
}

// Beside NULL, which tells no files, a disk has exactly what was done before the call that failed.
#[test]
fn a_failed_call_leaves_what_was_done(rt: HostRuntime) -> Result<(), Fail> {
    for (failing, shown, opened, got) in CALLS {
        let mut bench = disk_and_null(rt.alloc(), failing)?;
        let told = (Status::DeviceFault, shown, FAULT);
        check_listing(&rt, rt.alloc(), "LIST.DAT", &mut bench, told)?;
        assert_eq!(rt; bench.left, 1);
        assert!(rt; bench.devices.len() > 1);
        assert!(rt; bench.devices[0].name() == b"NULL".as_slice());
        expect_files(&rt, &mut *bench.devices[1], opened, got);
    }
    Ok(())
}
