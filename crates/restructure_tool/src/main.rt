//! A COBOL program in, a structured program that behaves the same out.
//!
//! `main` hands the words, standard input, output and error to `answer`. Its contract says that they
//! come to what `program` of `restructure_asks` promises, over a bench with the current folder under
//! the name DISK and a device NULL, and a second bench with the folder `second` in its place; and
//! that the exit status is the number of the status. Only tested: that calls succeed where memory is
//! ample, which words and bytes the host gives, what programs do with files of a folder, and the
//! help's text.
#![tactic(auto)]

ghost use Rattle.std.specs.Prelude.{map, string_bytes, IfOk, OnErr};
ghost use Rattle.std.specs.Process.{exit_status};
ghost use Rattle.cob_base.specs.Source.{source_call};
ghost use Rattle.cob_base.specs.Sink.{sink_call};
ghost use Rattle.restructure_tool.specs.Answered.{Answers, AnswersNone};

mod folders;
mod host;
mod subfolder;

use cob_base::{NoMemory, Sink, Source, StdSink, StdSource};
use folders::over_folders;
use host::{arguments, exit_code};
use restructure_asks::{Refusal, note};
use std::process::ExitCode;

fn main(rt: HostRuntime) -> ExitCode {
    let words = arguments(&rt);
    let mut source = StdSource::new(rt.stdin());
    let mut out = StdSink::new(rt.stdout());
    let mut notes = StdSink::new(rt.stderr());
    answer(&rt, words, &mut source, &mut out, &mut notes)
}

// Does what the command line asks, over the folders, and says with which exit status.
fn answer<S: Source, K: Sink, N: Sink>(
    rt: &HostRuntime,
    words: Result<Vec<String>, NoMemory>,
    source: &mut S,
    out: &mut K,
    notes: &mut N,
) -> ExitCode
    ensures words { IfOk words (λ words. Answers (map string_bytes words.items)
        (source_call S.left S.faults source.old source.new)
        (sink_call K.held K.faults out.old out.new)
        (sink_call N.held N.faults notes.old notes.new) (exit_status result)) }
    ensures wordless { OnErr words (AnswersNone
        (source_call S.left S.faults source.old source.new)
        (sink_call K.held K.faults out.old out.new)
        (sink_call N.held N.faults notes.old notes.new) (exit_status result)) }
{
    match over_folders(rt, words, source, out, notes) {
        Ok(status) => exit_code(status),
        Err(NoMemory) => exit_code(note(rt.alloc(), &Refusal::NoMemory, notes)),
    }
}
