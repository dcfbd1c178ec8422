//! The ask to compare two programs.

ghost use Rattle.std.specs.Prelude.{◌≡◌};
ghost use Rattle.cob_base.specs.Answers.{Makes};
ghost use Rattle.cob_base.specs.Source.{source_call};
ghost use Rattle.cob_base.specs.Sink.{sink_call};
ghost use Rattle.restructure_core.specs.run.Bench.{bench_call};
ghost use Rattle.restructure_asks.specs.Comparing.{AnswersTwo, EndsOfComparing, IsTold, of_pair, same_line};
ghost use Rattle.restructure_asks.specs.Tool.{IsEitherTold};

use crate::reading::read_source;
use crate::refusal::{Refusal, numbered};
use crate::status::Status;
use crate::texts::Texts;
use crate::writing::{give, note};
use cob_base::limit::{MAX_SOURCE, past};
use cob_base::{LimitKind, NoMemory, Sink, Source, Text};
use file_model::Bench;
use file_model::operations::Shown;
use restructure_core::Refused;
use source_pairs::{PairRefusal, read_two};
use std::alloc::Global;
use trace_compare::{Compared, compare};

/// Reads a source of two programs and runs each over its bench for at most so many steps. Where
/// they are the same, `out` gets a line with the count of their events; else `notes` gets a line
/// that says at which event they differ, or why that isn't known.
pub fn answer_compare<S: Source, K: Sink, N: Sink>(
    alloc: Global,
    steps: u64,
    source: &mut S,
    out: &mut K,
    notes: &mut N,
    bench: &mut Bench,
    second: &mut Bench,
) -> Status
    ensures ends { EndsOfComparing steps
        (source_call S.left S.faults source.old source.new)
        (sink_call K.held K.faults out.old out.new) (sink_call N.held N.faults notes.old notes.new)
        (bench_call ⟦<Bench as Shown>⟧.all bench.old bench.new)
        (bench_call ⟦<Bench as Shown>⟧.all second.old second.new) result }
    ensures devices { result ≡ Status.DeviceFault → IsEitherTold
        (sink_call N.held N.faults notes.old notes.new)
        (bench_call ⟦<Bench as Shown>⟧.all bench.old bench.new)
        (bench_call ⟦<Bench as Shown>⟧.all second.old second.new) }
{
    match read_source(alloc, source) {
        Err(refusal) => note(alloc, &refusal, notes),
        Ok(bytes) => {
            let answer = compared(alloc, bytes.as_slice(), steps, bench, second);
            give(alloc, answer, out, notes)
        }
    }
}

// What comes of the two programs of these bytes.
fn compared(
    alloc: Global,
    bytes: &[u8],
    steps: u64,
    bench: &mut Bench,
    second: &mut Bench,
) -> Result<Texts, Refusal>
    ensures { AnswersTwo bytes.now steps
        (bench_call ⟦<Bench as Shown>⟧.all bench.old bench.new)
        (bench_call ⟦<Bench as Shown>⟧.all second.old second.new) result }
{
    match read_two(alloc, bytes) {
        Err(why) => Err(unpaired(why)),
        Ok(programs) => {
            let came = compare(
                alloc,
                &programs.first,
                &programs.second,
                bench,
                second,
                steps,
            );
            told(alloc, steps, came)
        }
    }
}

// The refusal of bytes that aren't two programs.
fn unpaired(why: PairRefusal) -> Refusal
    ensures { result ≡ of_pair why }
{
    match why {
        PairRefusal::TooLong => {
            let limit = past(LimitKind::Source, false, MAX_SOURCE as u64 + 1);
            Refusal::Refused(Refused::Limit(limit))
        }
        PairRefusal::NoSecond => Refusal::NoSecond,
        PairRefusal::First(refusal) => Refusal::Refused(Refused::from(refusal)),
        PairRefusal::Second(refusal) => Refusal::Second(Refused::from(refusal)),
        PairRefusal::NoMemory => Refusal::NoMemory,
    }
}

// What is told of two programs that came to this.
fn told(alloc: Global, steps: u64, came: Compared) -> Result<Texts, Refusal>
    ensures { IsTold steps came result }
{
    match came {
        Compared::Same(count) => Ok(Texts {
            text: same_line(alloc, count)?,
            report: None,
        }),
        Compared::Differ(number) => Err(Refusal::Differ(number)),
        Compared::Budget => Err(Refusal::Budget(steps)),
        Compared::FirstFault(name) => Err(Refusal::Device(name)),
        Compared::SecondFault(name) => Err(Refusal::SecondDevice(name)),
        Compared::NoMemory => Err(Refusal::NoMemory),
    }
}

// The line that tells how many events the two have.
fn same_line(alloc: Global, count: u128) -> Result<Text, NoMemory>
    ensures { Makes (same_line count) result }
{
    let mut line = numbered(alloc, b"SAME ", count)?;
    line.add(b"\n")?;
    Ok(line)
}
