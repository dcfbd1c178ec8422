//! The asks of the tool, from the words to bytes in sinks.
//!
//! `tool` is the top call: it does what the words ask, over any source, sinks and bench, and its
//! contract is the promise of the whole tool (`specs/Tool.antt` is the place to begin). The words
//! of the command line are defined by `ask_of` in `specs/Ask.antt`, and the lines of a refusal,
//! with their statuses, by `specs/Refusal.antt` and `specs/Kind.antt`. That an answer comes exactly
//! where it is due is the law `due_answer_comes`, for a run `due_run_comes`, and for a comparison
//! `due_comparison_comes`. Only tested, in `tool_tests`: that calls succeed where memory is
//! ample.
#![tactic(auto)]

ghost use Rattle.std.specs.Prelude.{◌≡◌, false, map, string_bytes};
ghost use Rattle.cob_base.specs.Source.{source_call};
ghost use Rattle.cob_base.specs.Sink.{sink_call};
ghost use Rattle.restructure_core.specs.run.Bench.{bench_call};
ghost use Rattle.restructure_asks.specs.Ask.{ask_of as asked, reads, uses_bench, uses_second};
ghost use Rattle.restructure_asks.specs.Tool.{Ends, EndsCompared, EndsWithFiles, IsEitherTold};

mod answer;
mod ask;
mod command_line;
mod compare;
mod kind;
mod laws;
mod made;
mod reading;
mod refusal;
mod running;
mod status;
mod texts;
mod writing;

use answer::{answer_check, answer_generate, answer_report, answer_restructure, answer_trial};
pub use ask::{Ask, ask_of};
use cob_base::{Sink, Source};
pub use command_line::program;
use compare::answer_compare;
use file_model::Bench;
use file_model::operations::Shown;
pub use laws::{
    due_answer_comes, due_comparison_comes, due_run_comes, one_answer_is_due,
    runs_leave_their_bench, source_is_read_to_its_end, words_are_of_one_ask,
};
pub use refusal::Refusal;
use running::answer_run;
pub use status::Status;
use std::alloc::Global;
pub use writing::{note, write_text};

/// Does what the words ask; `Ask` lists what they may ask. Where it isn't done, `notes` gets a line
/// that says why, or the lines of a trail.
///
/// The order of the refusals is that of their causes: words, a fault of the source, those of
/// reading, too many ranges, a fault of flow, too many nodes, and the result's counts. Each ask but
/// run makes all that it writes first, and both sinks have room for it before the first byte is
/// written. A failure of `notes` changes no status, unless it is to get the report; where it can't
/// get room, the status is NoMemory.
pub fn tool<S: Source, K: Sink, N: Sink>(
    alloc: Global,
    words: &[String],
    source: &mut S,
    out: &mut K,
    notes: &mut N,
    bench: &mut Bench,
    second: &mut Bench,
) -> Status
    ensures ends { Ends (asked (map string_bytes words.now))
        (source_call S.left S.faults source.old source.new)
        (sink_call K.held K.faults out.old out.new)
        (sink_call N.held N.faults notes.old notes.new) result }

    // what a run leaves of the bench, and of the files of the devices that its program uses, where
    // these are known; those that it opened are closed
    ensures over { EndsWithFiles (asked (map string_bytes words.now))
        (source_call S.left S.faults source.old source.new)
        (sink_call K.held K.faults out.old out.new)
        (sink_call N.held N.faults notes.old notes.new)
        (bench_call ⟦<Bench as Shown>⟧.all bench.old bench.new) result }

    // what two programs come to that are compared, and what they leave of both benches
    ensures compared { EndsCompared (asked (map string_bytes words.now))
        (source_call S.left S.faults source.old source.new)
        (sink_call K.held K.faults out.old out.new) (sink_call N.held N.faults notes.old notes.new)
        (bench_call ⟦<Bench as Shown>⟧.all bench.old bench.new)
        (bench_call ⟦<Bench as Shown>⟧.all second.old second.new) result }

    // a device that is reported as failed did fail, and is off its bench
    ensures devices { result ≡ Status.DeviceFault → IsEitherTold
        (sink_call N.held N.faults notes.old notes.new)
        (bench_call ⟦<Bench as Shown>⟧.all bench.old bench.new)
        (bench_call ⟦<Bench as Shown>⟧.all second.old second.new) }

    // where nothing is read the source is as it was, also one of which nothing is known
    ensures unread { reads (asked (map string_bytes words.now)) ≡ 0 → source.new ≡ source.old }

    // where nothing is run the bench is as it was, and where nothing is compared the second one
    ensures unrun { uses_bench (asked (map string_bytes words.now)) ≡ false →
        bench.new ≡ bench.old }
    ensures apart { uses_second (asked (map string_bytes words.now)) ≡ false →
        second.new ≡ second.old }
{
    match ask_of(words) {
        None => note(alloc, &Refusal::Usage, notes),
        Some(Ask::Restructure) => answer_restructure(alloc, source, out, notes),
        Some(Ask::Report) => answer_report(alloc, source, out, notes),
        Some(Ask::Check) => answer_check(alloc, source, out, notes),
        Some(Ask::Run(steps)) => answer_run(alloc, steps, source, out, notes, bench),
        Some(Ask::Compare(steps)) => {
            answer_compare(alloc, steps, source, out, notes, bench, second)
        }
        Some(Ask::Generate(n)) => answer_generate(alloc, n, out, notes),
        Some(Ask::Trial(n)) => answer_trial(alloc, n, out, notes),
    }
}
