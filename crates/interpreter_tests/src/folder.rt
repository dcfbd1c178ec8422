//! A test in a real folder.

use cob_tree::How;
use file_model::folder::FolderDevice;
use file_model::{Device, Got, Opened, Put};
use std::fs;
use std::test::Fail;

const NAME: &str = "folder-device-example.txt";

const FILE: &[u8] = b"folder-device-example.txt";

/// A call of a device, and what it answers.
#[derive(Clone, Copy)]
enum Call {
    Open(How, Opened),
    Write(&'static [u8], Put),
    Rewrite(&'static [u8], Put),
    Read(Got),
    Close,
}

// All operations on a file: it is written, extended, read, rewritten, and read again.
const CALLS: [Call; 16] = [
    Call::Open(How::Output, Opened::Ready),
    Call::Write(b"one ", Put::Done),
    Call::Write(b"two ", Put::Done),
    Call::Close,
    Call::Open(How::Extend, Opened::Ready),
    Call::Write(b"en", Put::Done),
    Call::Close,
    Call::Open(How::InOut, Opened::Ready),
    Call::Rewrite(b"none", Put::Failed),
    Call::Read(Got::Bytes(4)),
    Call::Read(Got::Bytes(4)),
    Call::Rewrite(b"2222", Put::Done),
    Call::Read(Got::Bytes(2)),
    Call::Read(Got::End),
    Call::Close,
    Call::Open(How::Input, Opened::Ready),
];

fn is_answered<D: Device>(device: &mut D, call: Call) -> bool {
    match call {
        Call::Open(how, opened) => device.open_file(FILE, how) == opened,
        Call::Write(bytes, put) => device.write_next(FILE, bytes) == put,
        Call::Rewrite(bytes, put) => device.rewrite_last(FILE, bytes) == put,
        Call::Read(got) => {
            let mut record = [0u8; 4];
            device.read_next(FILE, &mut record) == got
        }
        Call::Close => device.close_file(FILE) == Put::Done,
    }
}

#[test]
fn a_file_is_written_read_and_put_back(rt: HostRuntime) -> Result<(), Fail> {
    let mut device = FolderDevice::new(rt.alloc(), b"DISK", &rt)?;
    assert!(rt; device.name() == b"DISK".as_slice());
    assert!(rt; device.open_file(b"no-such-file", How::Input) == Opened::Missing);
    for (at, call) in CALLS.iter().enumerate() {
        assert!(rt; is_answered(&mut device, *call), "at {at}");
    }
    let mut whole = [0u8; 20];
    assert!(rt; device.read_next(FILE, &mut whole) == Got::Bytes(10));
    assert!(rt; &whole[..10] == b"one 2222en".as_slice());
    assert!(rt; device.faults() == 1);
    assert!(rt; device.write_next(FILE, b"x") == Put::Failed);
    assert!(rt; device.faults() == 2);
    assert!(rt; device.close_file(FILE) == Put::Done);
    fs::remove_file(&rt, NAME)?;
    Ok(())
}
