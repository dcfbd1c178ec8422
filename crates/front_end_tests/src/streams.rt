//! Sources and sinks over readers and writers that are interrupted, and that fail.

use cob_base::{Gave, Sink, Source, StdSink, StdSource, Took};
use std::io;
use std::io::{ErrorKind, Read, Write};
use std::test::Fail;

// A reader and writer that is interrupted, then moves one byte, then none, and then fails.
#[derive(Drop)]
struct Flaky {
    calls: u64,
}

impl Flaky {
    fn answer(&mut self) -> io::Result<usize> {
        self.calls = self.calls.saturating_add(1);
        match self.calls {
            1 => Err(io::Error::from(ErrorKind::Interrupted)),
            2 => Ok(1),
            3 => Ok(0),
            _ => Err(io::Error::from(ErrorKind::BrokenPipe)),
        }
    }
}

impl Read for Flaky {
    fn read(&mut self, buf: &mut [u8]) -> io::Result<usize> {
        Ok(self.answer()?.min(buf.len()))
    }
}

impl Write for Flaky {
    fn write(&mut self, buf: &[u8]) -> io::Result<usize> {
        Ok(self.answer()?.min(buf.len()))
    }

    fn flush(&mut self) -> io::Result<()> {
        Ok(())
    }
}

// A writer that takes all bytes and then fails to flush them.
#[derive(Drop)]
struct Full;

impl Write for Full {
    fn write(&mut self, buf: &[u8]) -> io::Result<usize> {
        Ok(buf.len())
    }

    fn flush(&mut self) -> io::Result<()> {
        Err(io::Error::from(ErrorKind::StorageFull))
    }
}

#[test]
fn reads_on_after_an_interrupt_and_counts_faults(rt: HostRuntime) -> Result<(), Fail> {
    let mut source = StdSource::new(Flaky { calls: 0 });
    let mut buffer = [0u8; 4];
    assert_eq!(rt; source.take(&mut buffer), Took::Bytes(1));
    assert_eq!(rt; source.take(&mut buffer), Took::End);
    assert_eq!(rt; source.faults(), 0);
    assert_eq!(rt; source.take(&mut buffer), Took::Failed);
    assert_eq!(rt; source.faults(), 1);
    let mut whole = StdSource::new("AB".as_bytes());
    assert_eq!(rt; whole.take(&mut buffer), Took::Bytes(2));
    assert_eq!(rt; buffer, [65, 66, 0, 0]);
    assert_eq!(rt; whole.take(&mut buffer), Took::End);
    Ok(())
}

#[test]
fn writes_on_after_an_interrupt_and_counts_faults(rt: HostRuntime) -> Result<(), Fail> {
    let mut sink = StdSink::new(Flaky { calls: 0 });
    assert_eq!(rt; sink.ready(2), Ok(()));
    assert_eq!(rt; sink.give(b"AB"), Gave::Part(1));
    assert_eq!(rt; sink.faults(), 0);
    assert_eq!(rt; sink.give(b"B"), Gave::Failed);
    assert_eq!(rt; sink.give(b"B"), Gave::Failed);
    assert_eq!(rt; sink.faults(), 2);
    let mut full = StdSink::new(Full);
    assert_eq!(rt; full.give(b"AB"), Gave::Failed);
    assert_eq!(rt; full.faults(), 1);
    let mut written = Vec::<u8>::new(rt.alloc());
    let mut whole = StdSink::new(&mut written);
    assert_eq!(rt; whole.give(b"AB"), Gave::All);
    assert_eq!(rt; whole.give(b""), Gave::All);
    assert_eq!(rt; written.as_slice(), [65, 66].as_slice());
    Ok(())
}
