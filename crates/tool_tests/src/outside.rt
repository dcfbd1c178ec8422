//! Other sources and sinks, and no memory for the words.

use crate::calls::{Case, PLAIN, bare, check_notes, check_source, sink, words};
use crate::sources::HELLO;
use cob_base::{NoMemory, Source, StdSink, StdSource, Took};
use restructure_asks::{Status, program, tool};
use std::io::{self, ErrorKind, Write};
use std::test::Fail;

/// A source that gives one byte a call.
#[derive(Drop)]
struct Drip<'a> {
    bytes: &'a [u8],
    at: usize,
}

impl Source for Drip<'_> {
    ghost use Rattle.std.specs.Prelude.{None};

    ghost left = { λ _. None };

    ghost faults = { λ _. 0 };

    fn take(&mut self, into: &mut [u8]) -> Took {
        if into.is_empty() {
            return Took::Bytes(0);
        }
        match self.bytes.get(self.at) {
            None => Took::End,
            Some(byte) => {
                into[0] = *byte;
                self.at = self.at.saturating_add(1);
                Took::Bytes(1)
            }
        }
    }

    fn faults(&self) -> u64 {
        0
    }
}

#[test]
fn a_source_of_one_byte_a_call_gives_the_same(rt: HostRuntime) -> Result<(), Fail> {
    let mut source = Drip {
        bytes: HELLO.as_bytes(),
        at: 0,
    };
    let mut bench = bare(rt.alloc());
    check_source(&rt, rt.alloc(), &PLAIN, &mut source, &mut bench)?;
    Ok(())
}

#[test]
fn a_page_is_asked_of_the_program_alone(rt: HostRuntime) -> Result<(), Fail> {
    let alloc = rt.alloc();
    let words = words(alloc, &["--help"])?;
    let mut source = StdSource::new(HELLO.as_bytes());
    let mut out = sink(alloc, 4096, 0)?;
    let mut notes = sink(alloc, 4096, 0)?;
    let mut bench = bare(alloc);
    let mut second = bare(alloc);
    let status = tool(
        alloc,
        &words,
        &mut source,
        &mut out,
        &mut notes,
        &mut bench,
        &mut second,
    );
    assert_eq!(rt; status, Status::Usage);
    assert_eq!(rt; out.held.len(), 0);
    assert_eq!(rt; notes.held.as_slice(), b"USAGE\n".as_slice());
    Ok(())
}

/// A writer that takes all bytes and fails at flush, as a device that is full.
#[derive(Drop)]
struct Full;

impl Write for Full {
    fn write(&mut self, buf: &[u8]) -> io::Result<usize> {
        Ok(buf.len())
    }

    fn flush(&mut self) -> io::Result<()> {
        Err(io::Error::from(ErrorKind::StorageFull))
    }
}

// The words, which the program answers over standard streams whose output is full.
const FULL: [&[&str]; 3] = [&["--help"], &["--version"], &["restructure"]];

#[test]
fn an_output_that_is_full_is_told(rt: HostRuntime) -> Result<(), Fail> {
    for words in FULL {
        let case = Case {
            words,
            status: Status::WriteFault,
            notes: "WRITE FAULT\n",
            ..PLAIN
        };
        let mut source = StdSource::new(HELLO.as_bytes());
        let mut out = StdSink::new(Full);
        let mut bench = bare(rt.alloc());
        check_notes(&rt, rt.alloc(), &case, &mut source, &mut out, &mut bench)?;
    }
    Ok(())
}

#[test]
fn want_of_memory_for_the_words_is_told(rt: HostRuntime) -> Result<(), Fail> {
    let alloc = rt.alloc();
    let mut source = StdSource::new(HELLO.as_bytes());
    let mut out = sink(alloc, 4096, 0)?;
    let mut notes = sink(alloc, 4096, 0)?;
    let mut bench = bare(alloc);
    let mut second = bare(alloc);
    let status = program(
        alloc,
        Err(NoMemory),
        &mut source,
        &mut out,
        &mut notes,
        &mut bench,
        &mut second,
    );
    assert_eq!(rt; status, Status::NoMemory);
    assert_eq!(rt; out.held.len(), 0);
    assert_eq!(rt; notes.held.as_slice(), b"NO MEMORY\n".as_slice());
    Ok(())
}
