//! The asks for a text: the source is read, where the ask is about it, and the due answer is given.

ghost use Rattle.std.specs.Prelude.{Some};
ghost use Rattle.cob_base.specs.Source.{source_call};
ghost use Rattle.cob_base.specs.Sink.{sink_call};
ghost use Rattle.restructure_asks.specs.declared.ask.Ask.TheVariants.{Restructure, Report, Check, Generate, Trial};
ghost use Rattle.restructure_asks.specs.Ask.{IsProgramNumber};
ghost use Rattle.restructure_asks.specs.Tool.{Ends, EndsUnread};

use crate::made::{checked, generated, reported, restructured, tried};
use crate::reading::read_source;
use crate::status::Status;
use crate::writing::{give, note};
use cob_base::{Sink, Source};
use std::alloc::Global;

/// Restructures a source: the result goes to `out`, or `notes` gets the lines that say why not.
pub fn answer_restructure<S: Source, K: Sink, N: Sink>(
    alloc: Global,
    source: &mut S,
    out: &mut K,
    notes: &mut N,
) -> Status
    ensures { Ends (Some Restructure)
        (source_call S.left S.faults source.old source.new)
        (sink_call K.held K.faults out.old out.new)
        (sink_call N.held N.faults notes.old notes.new) result }
{
    match read_source(alloc, source) {
        Ok(bytes) => {
            let answer = restructured(alloc, bytes.as_slice());
            give(alloc, answer, out, notes)
        }
        Err(refusal) => note(alloc, &refusal, notes),
    }
}

/// The same, and after the result the report goes to `notes`.
pub fn answer_report<S: Source, K: Sink, N: Sink>(
    alloc: Global,
    source: &mut S,
    out: &mut K,
    notes: &mut N,
) -> Status
    ensures { Ends (Some Report)
        (source_call S.left S.faults source.old source.new)
        (sink_call K.held K.faults out.old out.new)
        (sink_call N.held N.faults notes.old notes.new) result }
{
    match read_source(alloc, source) {
        Ok(bytes) => {
            let answer = reported(alloc, bytes.as_slice());
            give(alloc, answer, out, notes)
        }
        Err(refusal) => note(alloc, &refusal, notes),
    }
}

/// Writes the report of a source to `out`, and no program.
pub fn answer_check<S: Source, K: Sink, N: Sink>(
    alloc: Global,
    source: &mut S,
    out: &mut K,
    notes: &mut N,
) -> Status
    ensures { Ends (Some Check)
        (source_call S.left S.faults source.old source.new)
        (sink_call K.held K.faults out.old out.new)
        (sink_call N.held N.faults notes.old notes.new) result }
{
    match read_source(alloc, source) {
        Ok(bytes) => {
            let answer = checked(alloc, bytes.as_slice());
            give(alloc, answer, out, notes)
        }
        Err(refusal) => note(alloc, &refusal, notes),
    }
}

/// Writes the generated program of a number.
pub fn answer_generate<K: Sink, N: Sink>(
    alloc: Global,
    n: u32,
    out: &mut K,
    notes: &mut N,
) -> Status
    requires { IsProgramNumber n }
    ensures { EndsUnread (Some (Generate n))
        (sink_call K.held K.faults out.old out.new)
        (sink_call N.held N.faults notes.old notes.new) result }
{
    let answer = generated(alloc, n);
    give(alloc, answer, out, notes)
}

/// Writes the report of the generated program of a number.
pub fn answer_trial<K: Sink, N: Sink>(alloc: Global, n: u32, out: &mut K, notes: &mut N) -> Status
    requires { IsProgramNumber n }
    ensures { EndsUnread (Some (Trial n))
        (sink_call K.held K.faults out.old out.new)
        (sink_call N.held N.faults notes.old notes.new) result }
{
    let answer = tried(alloc, n);
    give(alloc, answer, out, notes)
}
