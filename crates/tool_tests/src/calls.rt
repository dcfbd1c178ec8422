//! A call over a source and sinks in memory, and what it has to answer.
//!
//! Each function makes one of what a call needs and hands it on, so that little is alive where
//! memory may lack: that keeps their proofs short.

use crate::sources::{HELLO, HELLO_RESULT};
use cob_base::{MemSink, MemSource, Sink, Source, Text};
use file_model::Bench;
use restructure_asks::{Status, program};
use std::alloc::{AllocError, Global};
use std::process::Abort;

/// What the program is called with, and what it has to answer and write.
#[derive(Clone, Copy)]
pub struct Case {
    pub words: &'static [&'static str],
    pub source: &'static str,
    /// The number, from 1, of the call of the source that fails; 0 is none.
    pub read_fails: u64,
    /// How many bytes the sinks take a call.
    pub piece: usize,
    pub write_fails: u64,
    pub note_fails: u64,
    pub status: Status,
    pub out: &'static str,
    pub notes: &'static str,
}

/// A source is restructured, and nothing fails.
pub const PLAIN: Case = Case {
    words: &["restructure"],
    source: HELLO,
    read_fails: 0,
    piece: 4096,
    write_fails: 0,
    note_fails: 0,
    status: Status::Done,
    out: HELLO_RESULT,
    notes: "",
};

/// A text with these bytes.
pub fn text(alloc: Global, bytes: &[u8]) -> Result<Text, AllocError> {
    Ok(Text {
        bytes: bytes.to_vec(alloc)?,
    })
}

/// These words, as the command line has them.
pub fn words(alloc: Global, words: &[&str]) -> Result<Vec<String>, AllocError> {
    let mut all = Vec::new(alloc);
    for word in words {
        all.push(String::from_str(alloc, word)?)?;
    }
    Ok(all)
}

/// A source of which the call with this number fails; 0 is none.
fn source_of(alloc: Global, bytes: &[u8], failing: u64) -> Result<MemSource, AllocError> {
    let bytes = text(alloc, bytes)?;
    let failing = vec![in alloc; failing]?;
    Ok(MemSource {
        bytes,
        at: 0,
        calls: 0,
        failing,
        count: 0,
    })
}

/// A sink that takes so many bytes a call, of which the one with this number fails; 0 is none.
pub fn sink(alloc: Global, piece: usize, failing: u64) -> Result<MemSink, AllocError> {
    let failing = vec![in alloc; failing]?;
    Ok(MemSink {
        held: Vec::new(alloc),
        piece,
        calls: 0,
        failing,
        count: 0,
    })
}

/// A bench without devices.
pub fn bare(alloc: Global) -> Bench {
    Bench::new(Vec::new(alloc))
}

// What the program answers to the words.
fn status_of<S: Source, K: Sink, N: Sink>(
    alloc: Global,
    asked: &[&str],
    source: &mut S,
    out: &mut K,
    notes: &mut N,
    bench: &mut Bench,
) -> Result<Status, AllocError> {
    let words = words(alloc, asked)?;
    let mut second = bare(alloc);
    Ok(program(alloc, Ok(words), source, out, notes, bench, &mut second))
}

/// The program's status and its notes are as expected.
pub fn check_notes<S: Source, K: Sink>(
    rt: &impl Abort,
    alloc: Global,
    case: &Case,
    source: &mut S,
    out: &mut K,
    bench: &mut Bench,
) -> Result<(), AllocError> {
    let mut notes = sink(alloc, case.piece, case.note_fails)?;
    let status = status_of(alloc, case.words, source, out, &mut notes, bench)?;
    assert_eq!(rt; status, case.status);
    assert_eq!(rt; notes.held.as_slice(), case.notes.as_bytes());
    Ok(())
}

/// The program does what the case expects, with this source.
pub fn check_source<S: Source>(
    rt: &impl Abort,
    alloc: Global,
    case: &Case,
    source: &mut S,
    bench: &mut Bench,
) -> Result<(), AllocError> {
    let mut out = sink(alloc, case.piece, case.write_fails)?;
    check_notes(rt, alloc, case, source, &mut out, bench)?;
    assert!(rt; out.held.as_slice() == case.out.as_bytes());
    Ok(())
}

/// The program does what the case expects, with these bytes as its source.
pub fn check_bytes(
    rt: &impl Abort,
    alloc: Global,
    case: &Case,
    bytes: &[u8],
    bench: &mut Bench,
) -> Result<(), AllocError> {
    let mut source = source_of(alloc, bytes, case.read_fails)?;
    check_source(rt, alloc, case, &mut source, bench)
}

/// The program does what the case expects.
pub fn check(rt: &impl Abort, alloc: Global, case: &Case) -> Result<(), AllocError> {
    let mut bench = bare(alloc);
    check_bytes(rt, alloc, case, case.source.as_bytes(), &mut bench)
}
