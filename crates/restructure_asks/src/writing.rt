//! Texts and lines into sinks.

ghost use Rattle.cob_base.specs.Sink.{sink_call};
ghost use Rattle.restructure_asks.specs.Texts.{text_alone, with_report};
ghost use Rattle.restructure_asks.specs.Writing.{Writes, IsGiven, Notes, NotesLine, NotesOrNot};

use crate::refusal::Refusal;
use crate::status::Status;
use crate::texts::Texts;
use cob_base::giving::give_all;
use cob_base::{NoMemory, Sink};
use std::alloc::Global;

/// Gives an answer: its texts are written, or its refusal is noted.
pub fn give<K: Sink, N: Sink>(
    alloc: Global,
    answer: Result<Texts, Refusal>,
    out: &mut K,
    notes: &mut N,
) -> Status
    ensures { IsGiven answer (sink_call K.held K.faults out.old out.new)
        (sink_call N.held N.faults notes.old notes.new) result }
{
    match answer {
        Ok(texts) => write_texts(alloc, &texts, out, notes),
        Err(refusal) => note(alloc, &refusal, notes),
    }
}

// Writes the text, and after it the report, where there is one.
fn write_texts<K: Sink, N: Sink>(alloc: Global, texts: &Texts, out: &mut K, notes: &mut N) -> Status
    ensures { Writes texts.now (sink_call K.held K.faults out.old out.new)
        (sink_call N.held N.faults notes.old notes.new) result }
{
    let text = texts.text.as_slice();
    match &texts.report {
        None => write_text(alloc, text, out, notes),
        Some(report) => write_both(alloc, text, report.as_slice(), out, notes),
    }
}

/// Writes a text. Before its first byte is written, both sinks have room, for it and for the line
/// of a failure.
pub fn write_text<K: Sink, N: Sink>(
    alloc: Global,
    text: &[u8],
    out: &mut K,
    notes: &mut N,
) -> Status
    ensures { Writes (text_alone text.now) (sink_call K.held K.faults out.old out.new)
        (sink_call N.held N.faults notes.old notes.new) result }
{
    let Ok(line) = Refusal::WriteFault.line(alloc) else {
        return note(alloc, &Refusal::NoMemory, notes);
    };
    if out.ready(text.len()).is_err() {
        return note(alloc, &Refusal::NoMemory, notes);
    }
    if notes.ready(line.len()).is_err() {
        return Status::NoMemory;
    }
    if give_all(out, text) {
        return Status::Done;
    }
    let _ = give_all(notes, line.as_slice());
    Status::WriteFault
}

// Writes a text, and a report to the notes. Before the first byte is written, both sinks have room.
fn write_both<K: Sink, N: Sink>(
    alloc: Global,
    text: &[u8],
    report: &[u8],
    out: &mut K,
    notes: &mut N,
) -> Status
    ensures { Writes (with_report text.now report.now)
        (sink_call K.held K.faults out.old out.new)
        (sink_call N.held N.faults notes.old notes.new) result }
{
    let Ok(line) = Refusal::WriteFault.line(alloc) else {
        return note(alloc, &Refusal::NoMemory, notes);
    };
    if out.ready(text.len()).is_err() {
        return note(alloc, &Refusal::NoMemory, notes);
    }
    if notes.ready(line.len().max(report.len())).is_err() {
        return Status::NoMemory;
    }
    if !give_all(out, text) {
        let _ = give_all(notes, line.as_slice());
        return Status::WriteFault;
    }
    if give_all(notes, report) {
        return Status::Done;
    }
    Status::WriteFault
}

/// Writes the line of a refusal, where there is room for it. The answer is the refusal's status, or
/// NoMemory where there is no room.
pub fn note<N: Sink>(alloc: Global, refusal: &Refusal, notes: &mut N) -> Status
    ensures { Notes refusal.now (sink_call N.held N.faults notes.old notes.new) result }
{
    match refusal.line(alloc) {
        Ok(line) => note_line(line.as_slice(), refusal.status(), notes),
        Err(NoMemory) => note_line(b"NO MEMORY\n", Status::NoMemory, notes),
    }
}

/// Writes the line of a refusal, or nothing where there is no room for it.
pub fn note_if_room<N: Sink>(alloc: Global, refusal: &Refusal, notes: &mut N)
    ensures { NotesOrNot refusal.now (sink_call N.held N.faults notes.old notes.new) }
{
    if let Ok(line) = refusal.line(alloc) {
        let _ = note_line(line.as_slice(), refusal.status(), notes);
    }
}

// Writes the line of a status, where there is room for it.
fn note_line<N: Sink>(line: &[u8], status: Status, notes: &mut N) -> Status
    ensures { NotesLine line.now status (sink_call N.held N.faults notes.old notes.new) result }
{
    if notes.ready(line.len()).is_err() {
        return Status::NoMemory;
    }
    let _ = give_all(notes, line);
    status
}
