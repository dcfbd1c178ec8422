//! The command line: what the program answers itself.

ghost use Rattle.std.specs.Prelude.{◌≡◌, map, string_bytes, true, false, None, is_some, IfOk, IfSome, OnErr};
ghost use Rattle.cob_base.specs.Source.{source_call};
ghost use Rattle.cob_base.specs.Sink.{sink_call};
ghost use Rattle.restructure_core.specs.run.Bench.{bench_call};
ghost use Rattle.restructure_asks.specs.Ask.{ask_of};
ghost use Rattle.restructure_asks.specs.Tool.{Ends, EndsCompared, EndsWithFiles, IsEitherTold};
ghost use Rattle.restructure_asks.specs.Program.{asked_page, is_page, is_page_word, page_for, ShowsPage};

use crate::refusal::Refusal;
use crate::status::Status;
use crate::tool;
use crate::writing::{note, write_text};
use cob_base::{NoMemory, Sink, Source};
use file_model::Bench;
use file_model::operations::Shown;
use std::alloc::Global;

/// The page that `--help` shows.
pub const HELP: &str = "\
usage: restructure_tool restructure [--report] < SOURCE > RESULT
       restructure_tool check < SOURCE > REPORT
       restructure_tool run --steps N < SOURCE > DISPLAYED
       restructure_tool compare --steps N < BOTH-SOURCES
       restructure_tool generate N > SOURCE, or trial N > REPORT

Tumgaiba rewrites a COBOL-85 program, full of GO TO, as a structured program
that behaves the same. Where it can't, standard error has a line that says why.

restructure   write the structured program; with --report standard error then
              tells what was dropped and added
check         write that report alone
run           run the program for at most N steps; its files are those of the
              current folder, and NULL:NAME is a file that is always empty
compare       run two programs, cut at a line ======, the second in the folder
              second, and tell whether or where they differ
generate      write the program number N of 1 to 1249; trial tells its report

Exit statuses: 0 done, 1 USAGE, 2 NOT SUBSET, 3 FLOW, 4 LIMIT, 5 READ FAULT,
6 WRITE FAULT, 7 DEVICE FAULT, 8 ABEND, 9 BUDGET, 10 NO MEMORY, 11 DIFFER.

Example: restructure_tool restructure < OLD.cob > NEW.cob
The manual is docs/USING.md.
";

/// The page that `--version` shows.
pub const VERSION: &str = "Tumgaiba 0.1.0 (restructure_tool)
proved with rattle-kit-13f logic dac8208d650f15bf
";

/// Does what the command line asks, over any source, sinks and benches: `--help` and `--version`
/// show a page, and other words are those of `tool`.
pub fn program<S: Source, K: Sink, N: Sink>(
    alloc: Global,
    words: Result<Vec<String>, NoMemory>,
    source: &mut S,
    out: &mut K,
    notes: &mut N,
    bench: &mut Bench,
    second: &mut Bench,
) -> Status
    ensures page { IfOk words (λ words. is_page (map string_bytes words.items) ≡ true →
        ShowsPage (asked_page (map string_bytes words.items))
        (source_call S.left S.faults source.old source.new)
        (sink_call K.held K.faults out.old out.new)
        (sink_call N.held N.faults notes.old notes.new) result) }
    ensures ask { IfOk words (λ words. is_page (map string_bytes words.items) ≡ false →
        Ends (ask_of (map string_bytes words.items))
        (source_call S.left S.faults source.old source.new)
        (sink_call K.held K.faults out.old out.new)
        (sink_call N.held N.faults notes.old notes.new) result) }
    ensures over { IfOk words (λ words. is_page (map string_bytes words.items) ≡ false →
        EndsWithFiles (ask_of (map string_bytes words.items))
        (source_call S.left S.faults source.old source.new)
        (sink_call K.held K.faults out.old out.new)
        (sink_call N.held N.faults notes.old notes.new)
        (bench_call ⟦<Bench as Shown>⟧.all bench.old bench.new) result) }
    ensures compared { IfOk words (λ words. is_page (map string_bytes words.items) ≡ false →
        EndsCompared (ask_of (map string_bytes words.items))
        (source_call S.left S.faults source.old source.new)
        (sink_call K.held K.faults out.old out.new) (sink_call N.held N.faults notes.old notes.new)
        (bench_call ⟦<Bench as Shown>⟧.all bench.old bench.new)
        (bench_call ⟦<Bench as Shown>⟧.all second.old second.new) result) }
    ensures devices { result ≡ Status.DeviceFault → IsEitherTold
        (sink_call N.held N.faults notes.old notes.new)
        (bench_call ⟦<Bench as Shown>⟧.all bench.old bench.new)
        (bench_call ⟦<Bench as Shown>⟧.all second.old second.new) }

    // where memory ran out for the words
    ensures wordless { OnErr words (result ≡ Status.NoMemory) }
    ensures ends { OnErr words (Ends None (source_call S.left S.faults source.old source.new)
        (sink_call K.held K.faults out.old out.new)
        (sink_call N.held N.faults notes.old notes.new) result) }
{
    match words {
        Ok(words) => serve(alloc, words.as_slice(), source, out, notes, bench, second),
        Err(NoMemory) => note(alloc, &Refusal::NoMemory, notes),
    }
}

// Shows a page, or does what `tool` does.
fn serve<S: Source, K: Sink, N: Sink>(
    alloc: Global,
    words: &[String],
    source: &mut S,
    out: &mut K,
    notes: &mut N,
    bench: &mut Bench,
    second: &mut Bench,
) -> Status
    ensures page { is_page (map string_bytes words.now) ≡ true →
        ShowsPage (asked_page (map string_bytes words.now))
        (source_call S.left S.faults source.old source.new)
        (sink_call K.held K.faults out.old out.new)
        (sink_call N.held N.faults notes.old notes.new) result }
    ensures ask { is_page (map string_bytes words.now) ≡ false →
        Ends (ask_of (map string_bytes words.now))
        (source_call S.left S.faults source.old source.new)
        (sink_call K.held K.faults out.old out.new)
        (sink_call N.held N.faults notes.old notes.new) result }
    ensures over { is_page (map string_bytes words.now) ≡ false →
        EndsWithFiles (ask_of (map string_bytes words.now))
        (source_call S.left S.faults source.old source.new)
        (sink_call K.held K.faults out.old out.new)
        (sink_call N.held N.faults notes.old notes.new)
        (bench_call ⟦<Bench as Shown>⟧.all bench.old bench.new) result }
    ensures compared { is_page (map string_bytes words.now) ≡ false →
        EndsCompared (ask_of (map string_bytes words.now))
        (source_call S.left S.faults source.old source.new)
        (sink_call K.held K.faults out.old out.new) (sink_call N.held N.faults notes.old notes.new)
        (bench_call ⟦<Bench as Shown>⟧.all bench.old bench.new)
        (bench_call ⟦<Bench as Shown>⟧.all second.old second.new) result }
    ensures devices { result ≡ Status.DeviceFault → IsEitherTold
        (sink_call N.held N.faults notes.old notes.new)
        (bench_call ⟦<Bench as Shown>⟧.all bench.old bench.new)
        (bench_call ⟦<Bench as Shown>⟧.all second.old second.new) }
{
    match page_of(words) {
        Some(page) => write_text(alloc, page.as_bytes(), out, notes),
        None => tool(alloc, words, source, out, notes, bench, second),
    }
}

// The page that the words ask the program itself for.
fn page_of(words: &[String]) -> Option<&'static str>
    ensures some { is_some result ≡ is_page (map string_bytes words.now) }
    ensures page { IfSome result (λ page. page.now ≡ asked_page (map string_bytes words.now)) }
{
    match words {
        [word] => page_of_word(word.as_str()),
        _ => None,
    }
}

// The page of one word.
fn page_of_word(word: &str) -> Option<&'static str>
    ensures some { is_some result ≡ is_page_word word.now }
    ensures page { IfSome result (λ page. page.now ≡ page_for word.now) }
{
    if word == "--help" {
        return Some(HELP);
    }
    if word == "--version" {
        return Some(VERSION);
    }
    None
}
