//! The ask to run a source.

ghost use Rattle.std.specs.Prelude.{◌≡◌};
ghost use Rattle.cob_base.specs.Source.{source_call};
ghost use Rattle.cob_base.specs.Sink.{sink_call};
ghost use Rattle.restructure_core.specs.run.Bench.{bench_call};
ghost use Rattle.restructure_asks.specs.Running.{EndsOfRun, EndsOfRunWithFiles, IsDeviceTold, TellsCame, refusal_of};
ghost use Rattle.restructure_asks.specs.Running as runs;

use crate::reading::read_source;
use crate::refusal::Refusal;
use crate::status::Status;
use crate::writing::{note, note_if_room};
use cob_base::{Sink, Source};
use cob_tree::Program;
use cobol_read::ReadRefusal;
use cobol_run::{Ending, Ran};
use file_model::Bench;
use file_model::operations::Shown;
use restructure_core::Refused;
use restructure_core::run::{SourceRun, run_source};
use std::alloc::Global;

/// Reads a source and runs it over a bench for at most so many steps. What it displays goes to
/// `out`; where it isn't run, or doesn't stop by itself, `notes` gets a line that says why.
pub fn answer_run<S: Source, K: Sink, N: Sink>(
    alloc: Global,
    steps: u64,
    source: &mut S,
    out: &mut K,
    notes: &mut N,
    bench: &mut Bench,
) -> Status
    ensures ends { EndsOfRun steps
        (source_call S.left S.faults source.old source.new)
        (sink_call K.held K.faults out.old out.new)
        (sink_call N.held N.faults notes.old notes.new) result }
    ensures over { EndsOfRunWithFiles steps
        (source_call S.left S.faults source.old source.new)
        (sink_call K.held K.faults out.old out.new)
        (sink_call N.held N.faults notes.old notes.new)
        (bench_call ⟦<Bench as Shown>⟧.all bench.old bench.new) result }
    ensures devices { result ≡ Status.DeviceFault → IsDeviceTold
        (sink_call N.held N.faults notes.old notes.new)
        (bench_call ⟦<Bench as Shown>⟧.all bench.old bench.new) }
{
    match read_source(alloc, source) {
        Err(refusal) => note(alloc, &refusal, notes),
        Ok(bytes) => {
            let came = run_source(alloc, bytes.as_slice(), bench, out, steps);
            tell(alloc, steps, came, notes)
        }
    }
}

// Writes to the notes what came of a source, unless its run stopped by itself.
fn tell<N: Sink>(
    alloc: Global,
    steps: u64,
    came: Result<SourceRun, ReadRefusal>,
    notes: &mut N,
) -> Status
    ensures { TellsCame (refusal_of steps came)
        (sink_call N.held N.faults notes.old notes.new) result }
{
    match refusal_of(steps, came) {
        None => Status::Done,
        Some(refusal) => tell_why(alloc, &refusal, notes),
    }
}

// Writes to the notes why a run didn't stop by itself. At a write fault of the sink the status is
// that, and the notes get its line or nothing.
fn tell_why<N: Sink>(alloc: Global, refusal: &Refusal, notes: &mut N) -> Status
    ensures { TellsCame (Some refusal.now)
        (sink_call N.held N.faults notes.old notes.new) result }
{
    match refusal {
        Refusal::WriteFault => {
            note_if_room(alloc, refusal, notes);
            Status::WriteFault
        }
        _ => note(alloc, refusal, notes),
    }
}

// Why a source has no run that stopped by itself; none where it has.
fn refusal_of(steps: u64, came: Result<SourceRun, ReadRefusal>) -> Option<Refusal>
    ensures { result ≡ refusal_of steps came }
{
    match came {
        Ok(SourceRun { program, ran }) => refusal_of_run(steps, program, ran),
        Err(refusal) => Some(unread(refusal)),
    }
}

fn refusal_of_run(steps: u64, program: Program, ran: Ran) -> Option<Refusal>
    ensures { result ≡ runs.refusal_of_run steps program ran }
{
    match ran {
        Ran::Ended(ending) => refusal_of_ending(program, ending),
        Ran::Budget => Some(Refusal::Budget(steps)),
        Ran::DeviceFault(name) => Some(Refusal::Device(name)),
        Ran::WriteFault => Some(Refusal::WriteFault),
        Ran::NoMemory => Some(Refusal::NoMemory),
    }
}

fn refusal_of_ending(program: Program, ending: Ending) -> Option<Refusal>
    ensures { result ≡ runs.refusal_of_ending program ending }
{
    match ending {
        Ending::Stopped => None,
        Ending::Abended(abend) => Some(Refusal::Abend(abend)),
        Ending::Faulted(fault) => Some(Refusal::Fault(program, fault)),
    }
}

// The refusal of a source that isn't read, or for which memory was wanted.
fn unread(refusal: ReadRefusal) -> Refusal
    ensures { result ≡ runs.unread refusal }
{
    Refusal::from(Refused::from(refusal))
}
