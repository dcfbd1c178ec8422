//! A run step by step, whose events can be read after each step.
//!
//! `begin` makes a machine that keeps what it does with files. After a step that `advance` made,
//! its events are `step_events` of specs/Events.antt: the bytes in `held.shown` where it displayed,
//! else the operations in `work`, each with the bytes that `bytes_of` gives. Over devices whose
//! files are known they are the events of the source's step (`Tracks`). `finish` closes what is
//! left open, and names the device that failed first.

ghost use Rattle.std.specs.Prelude.{◌≡◌, ◌<◌, ◌^◌, [], ℕ, List, IfOk, length, vec_capacity};
ghost use Rattle.cob_tree.specs.declared.program.Program.{Program};
ghost use Rattle.cobol_theory.specs.cobol_meaning.Runs.{Files};
ghost use Rattle.control_flow_theory.specs.semantics.Outcome.{Trace};
ghost use Rattle.file_model.specs.operations.Calls.{addresses_of};
ghost use Rattle.file_model.specs.operations.Falling.{AreShut, LeftOf, is_used};
ghost use Rattle.file_model.specs.operations.Seen.{Seen};
ghost use Rattle.cobol_run.specs.Events.{FinishFalls, Finishes, LeftSoFar, Tracks, TracksOn, finished_by};
ghost use Rattle.cobol_run.specs.Falling.{SameBench, StepFalls};
ghost use Rattle.cobol_run.specs.Over.{TellFiles};
ghost use Rattle.cobol_run.specs.Own.{IsOwn};

use crate::machine::{Machine, StepOutcome};
use crate::running::{fault_name, start};
use cob_act::files::close_left;
use cob_base::{NoMemory, Text};
use cob_tree::Program;
use file_model::Bench;
use file_model::operations::Shown;
use std::alloc::Global;

/// A machine at the start of this program, which keeps what it does with files.
pub fn begin<'a>(alloc: Global, program: &'a Program) -> Result<Machine<'a>, NoMemory>
    ensures tracks { IfOk result (λ machine. (devices : List Seen) (files : Files) →
        TellFiles program.now devices files → Tracks program.now files machine devices 0 []) }
    ensures program { IfOk result (λ machine. machine.plan.program.now ≡ program.now) }
    ensures few { IfOk result (λ machine. length program.now.files < 2 ^ 32) }
{
    if program.entries.len() >= 1 << 31 {
        return Err(NoMemory);
    }
    let mut machine = start(alloc, program)?;
    machine.work.keeps = true;
    Ok(machine)
}

/// Makes one step, whose events can be read then.
pub fn advance(machine: &mut Machine, bench: &mut Bench) -> Result<StepOutcome, NoMemory>
    // over devices whose files are known its events are those of the source's step
    ensures tracks { (program : Program) (files : Files) (done : ℕ) (trace : Trace) →
        IsOwn program → Tracks program files machine.old
        (⟦<Bench as Shown>⟧.on bench.old) done trace →
        TracksOn program files result machine.new (⟦<Bench as Shown>⟧.on bench.new) done trace }
    ensures plan { machine.new.plan ≡ machine.old.plan }

    // what is left of a bench of which no device had failed
    ensures falls { (left : ℕ) (old : List Seen) → SameBench machine.old.plan.program.now.files
        left bench.old.left old (⟦<Bench as Shown>⟧.all bench.old) →
        StepFalls result machine.old.plan.program.now.files left bench.new.left old
        (⟦<Bench as Shown>⟧.all bench.new) machine.new.table.rows }
{
    machine.step(bench)
}

/// How the devices of a run came out.
#[derive(Drop)]
pub enum Finished {
    /// None failed.
    Whole,
    /// The device of that name failed first.
    DeviceFault(Text),
    NoMemory,
}

fn finished_by(name: Result<Text, NoMemory>) -> Finished
    ensures { result ≡ finished_by name }
{
    match name {
        Ok(name) => Finished::DeviceFault(name),
        Err(NoMemory) => Finished::NoMemory,
    }
}

/// Closes the files that a run left open, on the devices that are left, and says which device
/// failed first since the bench had so many. The room is for its name.
pub fn finish(
    alloc: Global,
    room: &mut Vec<u8>,
    machine: &mut Machine,
    bench: &mut Bench,
    left: usize,
) -> Finished
    ensures falls { (old : List Seen) → length machine.old.plan.program.now.files < 2 ^ 32 →
        LeftSoFar machine.old.plan.program.now.files left bench.old.left old
        (⟦<Bench as Shown>⟧.all bench.old) machine.old.table.rows →
        FinishFalls result (vec_capacity room.old) machine.old.plan.program.now.files left
        bench.new.left old (⟦<Bench as Shown>⟧.all bench.new) }
    ensures ends { (gone : List (List ℕ)) (old : List Seen) →
        length machine.old.plan.program.now.files < 2 ^ 32 →
        LeftOf (is_used (addresses_of machine.old.plan.program.now.files)) gone
        left bench.old.left old (⟦<Bench as Shown>⟧.all bench.old) →
        AreShut gone (addresses_of machine.old.plan.program.now.files) machine.old.table.rows →
        Finishes result machine.old.plan.program.now.files gone left bench.new.left old
        (⟦<Bench as Shown>⟧.all bench.new) (⟦<Bench as Shown>⟧.on bench.old)
        machine.old.table.rows }
{
    let files = machine.plan.program.files.as_slice();
    close_left(bench, &mut machine.table, files);
    if bench.left >= left {
        return Finished::Whole;
    }
    let failed = fault_name(alloc, room, bench, left - 1);
    finished_by(failed)
}
