//! Runs a source.
//!
//! `run_source` reads a source and runs its program over a bench for at most so many steps. What it
//! answers `Comes` in specs/run/Answers.antt says, with a clause for each answer: `Reads` and
//! `HasCause` of `cobol_read` say which program the source is, or why it is none; where the program
//! has no statement on files (`is_plain`), `RunsAs` of `cobol_run` says what its run comes to (ISO
//! 1989:1985). Over devices whose files are known `ComesOver` says what the run of any program
//! comes to.

ghost use Rattle.std.specs.Prelude.{◌≤◌, vec_len};
ghost use Rattle.cob_base.specs.Faults.{Rose};
ghost use Rattle.cob_base.specs.Sink.{sink_call};
ghost use Rattle.restructure_core.specs.run.Answers.{CameFalls, CameNested, Comes, ComesOver, IsWriteFault};
ghost use Rattle.restructure_core.specs.run.Bench.{bench_call};

use cob_base::Sink;
use cob_tree::Program;
use cobol_read::{ReadRefusal, read};
use cobol_run::{Ran, run};
use file_model::Bench;
use file_model::operations::Shown;
use std::alloc::Global;

/// A program that was read, and what came of its run.
#[derive(Drop)]
pub struct SourceRun {
    pub program: Program,
    pub ran: Ran,
}

/// Reads a source and runs its program over a bench for at most so many steps. What the program
/// displays goes to `out`, in which room is made before each display. Where nothing runs, `bench`
/// and `out` stay as they are.
pub fn run_source<K: Sink>(
    alloc: Global,
    bytes: &[u8],
    bench: &mut Bench,
    out: &mut K,
    steps: u64,
) -> Result<SourceRun, ReadRefusal>
    requires within { bench.old.left ≤ vec_len bench.old.devices }
    ensures came { Comes bytes.now steps (sink_call K.held K.faults out.old out.new) result }
    ensures over { ComesOver bytes.now steps (sink_call K.held K.faults out.old out.new)
        (bench_call ⟦<Bench as Shown>⟧.all bench.old bench.new) result }

    // a structured program's run is what its nested statements mean
    ensures nested { CameNested (sink_call K.held K.faults out.old out.new)
        (bench_call ⟦<Bench as Shown>⟧.all bench.old bench.new) result }
    ensures cause { IsWriteFault result → Rose (K.faults out.old) (K.faults out.new) }
    ensures falls { CameFalls result
        (bench_call ⟦<Bench as Shown>⟧.all bench.old bench.new) }
{
    let program = read(alloc, bytes)?;
    let ran = run(alloc, &program, bench, out, steps);
    Ok(SourceRun { program, ran })
}
