//! A whole run.

ghost use Rattle.std.specs.Prelude.{◌≡◌, ◌≢◌, ◌<◌, ◌≤◌, vec_capacity, vec_len, ◌^◌, [], ℕ, Err, List, IfErr, IfOk, IfSome, false, length, replicate, slice_get};
ghost use Rattle.std.specs.declared.option.Option.{Option};
ghost use Rattle.cob_tree.specs.declared.program.Program.{Program};
ghost use Rattle.cob_base.specs.Faults.{Rose};
ghost use Rattle.cob_base.specs.Sink.{SinkCall, sink_call};
ghost use Rattle.meanings.specs.statements.Does.{declared_in};
ghost use Rattle.cobol_theory.specs.cobol_meaning.Runs.{Files, begun_in, world_with};
ghost use Rattle.file_model.specs.Status.{closed_row};
ghost use Rattle.file_model.specs.operations.Seen.{Seen};
ghost use Rattle.cobol_run.specs.declared.machine.Machine.{Machine};
ghost use Rattle.cobol_run.specs.Falling.{Names, NamesDevice, NamesFault, NamesFit, RunFalls, TurnFalls, breaks_off};
ghost use Rattle.cobol_run.specs.Filing.{some_open};
ghost use Rattle.cobol_run.specs.Machine.{state_in};
ghost use Rattle.cobol_run.specs.Over.{FilesEnd, RunEnds, SoFarOver, StepsEnd, TurnsOver};
ghost use Rattle.cobol_run.specs.Own.{IsOwn};
ghost use Rattle.cobol_run.specs.Plain.{IsPlain};
ghost use Rattle.cobol_run.specs.Plan.{declared_by};
ghost use Rattle.cobol_run.specs.Running.{RunsAs, SoFar, TurnsTo, since};

use crate::constant_places::with_known;
use crate::frames::Frames;
use crate::held::{Held, Plan};
use crate::machine::{Ending, Machine, StepOutcome};
use cob_act::files::{FileWork, close_left};
use cob_base::giving::give_all;
use cob_base::{NoMemory, Sink, Text};
use cob_store::{Store, layout};
use cob_tree::Program;
use file_model::operations::{Shown, Watched};
use file_model::{Bench, Device, FileTable};
use std::alloc::Global;
use std::mem;

/// How a run ended.
#[derive(Drop)]
pub enum Ran {
    Ended(Ending),
    /// It still ran after its last step.
    Budget,
    /// The device of that name failed, and is off the bench.
    DeviceFault(Text),
    /// The sink failed.
    WriteFault,
    NoMemory,
}

// The table of a program's files, none of them open.
#[tactic(auto, using(crate::proofs::RunningLemmas::none_open))]
fn table_of(alloc: Global, program: &Program) -> Result<FileTable, NoMemory>
    ensures closed { IfOk result (λ table. table.rows
        ≡ replicate (length program.now.files) closed_row) }
    ensures few { IfOk result (λ table. length program.now.files < 2 ^ 32) }
    ensures shut { IfOk result (λ table. some_open table.rows ≡ false) }
{
    let files = program.files.len();
    if files >= 1 << 32 {
        return Err(NoMemory);
    }
    FileTable::new(alloc, files as u32)
}

/// A machine at the start of this program, which must have fewer than 2^31 entries.
pub fn start<'a>(alloc: Global, program: &'a Program) -> Result<Machine<'a>, NoMemory>
    requires entries { length program.now.entries < 2 ^ 31 }
    ensures begun { IfOk result (λ machine. (files : Files) →
        state_in machine (world_with (declared_in program.now) files) []
        ≡ begun_in program.now (declared_in program.now) files) }
    ensures declared { IfOk result (λ machine. declared_by machine.plan ≡ declared_in program.now) }
    ensures program { IfOk result (λ machine. machine.plan.program.now ≡ program.now) }
    ensures closed { IfOk result (λ machine. machine.table.rows
        ≡ replicate (length program.now.files) closed_row) }
    ensures few { IfOk result (λ machine. length program.now.files < 2 ^ 32) }
    ensures shut { IfOk result (λ machine. some_open machine.table.rows ≡ false) }
{
    let table = table_of(alloc, program)?;
    let areas = layout(alloc, program.entries.as_slice())?;
    let store = Store::initial(alloc, &areas, program.entries.as_slice())?;
    let areas = with_known(program, areas, &store)?;
    let mut machine = Machine {
        plan: Plan { program, areas },
        frames: Frames::new(alloc),
        paragraph: 0,
        held: Held {
            store,
            scratch: Vec::new(alloc),
            shown: Text::new(alloc),
        },
        table,
        work: FileWork::new(alloc),
    };
    machine.go_to(0)?;
    Ok(machine)
}

// Makes a step, and writes what it displays to the sink. An error is what the run came to where that
// broke off.
fn make_turn<K: Sink>(
    machine: &mut Machine,
    bench: &mut Bench,
    out: &mut K,
) -> Result<StepOutcome, Ran>
    ensures turned { (program : Program) (done : ℕ) (held : Option (List ℕ)) (count : ℕ) →
        SoFar program machine.old done (since held count (K.held out.old) (K.faults out.old)) →
        TurnsTo program machine.new done (since held count (K.held out.new) (K.faults out.new))
        result }

    // over devices whose files are known
    ensures over { (program : Program) (files : Files) (done : ℕ) (held : Option (List ℕ))
        (count : ℕ) → IsOwn program → SoFarOver program files machine.old
        (⟦<Bench as Shown>⟧.on bench.old) done
        (since held count (K.held out.old) (K.faults out.old)) →
        TurnsOver program files machine.new bench.new.left (⟦<Bench as Shown>⟧.all bench.new) done
        (since held count (K.held out.new) (K.faults out.new)) result }
    ensures cause { result ≡ Err Ran.WriteFault → Rose (K.faults out.old) (K.faults out.new) }
    ensures unnamed { IfErr result (λ came. Names came []) }
    ensures later { K.faults out.old ≤ K.faults out.new }
    ensures plan { machine.new.plan ≡ machine.old.plan }
    ensures falls { TurnFalls result machine.old.plan.program.now.files
        bench.old.left bench.new.left (⟦<Bench as Shown>⟧.all bench.old)
        (⟦<Bench as Shown>⟧.all bench.new) machine.new.table.rows }

    // without statements on files the devices aren't used
    ensures kept { (program : Program) (done : ℕ) (sink : SinkCall) →
        SoFar program machine.old done sink → IsPlain program →
        (bench.new ≡ bench.old) × (machine.new.table ≡ machine.old.table) }
{
    match machine.step(bench) {
        Err(_) => Err(Ran::NoMemory),
        Ok(StepOutcome::On) => Ok(StepOutcome::On),
        Ok(StepOutcome::Over(ending)) => Ok(StepOutcome::Over(ending)),
        Ok(StepOutcome::Failed) => Ok(StepOutcome::Failed),
        Ok(StepOutcome::Shown) => {
            let shown = machine.held.shown.as_slice();
            if out.ready(shown.len()).is_err() {
                return Err(Ran::NoMemory);
            }
            if give_all(out, shown) {
                return Ok(StepOutcome::Shown);
            }
            Err(Ran::WriteFault)
        }
    }
}

fn device_name(device: &Box<dyn Device>) -> &[u8]
    ensures { result.now ≡ (⟦<Box<dyn Device> as Watched>⟧.seen device.now).name }
{
    device.name()
}

/// Makes room for the name of each device, so that a device fault needs no memory.
pub fn name_room(alloc: Global, bench: &Bench) -> Result<Vec<u8>, NoMemory>
    ensures { IfOk result (λ room. NamesFit (vec_capacity room)
        (⟦<Bench as Shown>⟧.all bench.now)) }
{
    let mut room: Vec<u8> = Vec::new(alloc);
    for at in 0..bench.devices.len() {
        add_room(&mut room, bench, at)?;
    }
    Ok(room)
}

// Room for the name of the device at that place too.
fn add_room(room: &mut Vec<u8>, bench: &Bench, at: usize) -> Result<(), NoMemory>
    requires { at < vec_len bench.now.devices }
    ensures more { vec_capacity room.old ≤ vec_capacity room.new }
    ensures fits { IfOk result (λ u. IfSome (slice_get (⟦<Bench as Shown>⟧.all bench.now) at)
        (λ device. length device.name ≤ vec_capacity room.new)) }
{
    room.clear();
    room.try_reserve(device_name(&bench.devices[at]).len())?;
    Ok(())
}

/// The name of the device at that place, which failed and whose name the room is for.
pub fn fault_name(
    alloc: Global,
    room: &mut Vec<u8>,
    bench: &Bench,
    at: usize,
) -> Result<Text, NoMemory>
    ensures { NamesFault (vec_capacity room.old) result
        (slice_get (⟦<Bench as Shown>⟧.all bench.now) at) }
{
    if at >= bench.devices.len() {
        return Err(NoMemory);
    }
    let mut name = mem::replace(room, Vec::new(alloc));
    name.clear();
    name.extend_from_slice(device_name(&bench.devices[at]))?;
    Ok(Text { bytes: name })
}

// What a run came to in which the device at that place failed.
fn device_fault(alloc: Global, room: &mut Vec<u8>, bench: &Bench, at: usize) -> Ran
    ensures live { result ≢ Ran.WriteFault }
    ensures named { NamesDevice (vec_capacity room.old) result
        (slice_get (⟦<Bench as Shown>⟧.all bench.now) at) }
{
    match fault_name(alloc, room, bench, at) {
        Ok(name) => Ran::DeviceFault(name),
        Err(NoMemory) => Ran::NoMemory,
    }
}

// Makes at most so many steps.
fn run_on<K: Sink>(
    alloc: Global,
    room: &mut Vec<u8>,
    machine: &mut Machine,
    bench: &mut Bench,
    out: &mut K,
    steps: u64,
) -> Ran
    requires { NamesFit (vec_capacity room.old) (⟦<Bench as Shown>⟧.all bench.old) }
    ensures run { (program : Program) (files : Files) →
        SoFar program machine.old 0 (since (K.held out.old) (K.faults out.old)
        (K.held out.old) (K.faults out.old)) → IsPlain program → RunsAs program files steps
        (sink_call K.held K.faults out.old out.new) result }
    ensures cause { result ≡ Ran.WriteFault → Rose (K.faults out.old) (K.faults out.new) }
    ensures plan { machine.new.plan ≡ machine.old.plan }
    ensures kept { (program : Program) → SoFar program machine.old 0 (since (K.held out.old)
        (K.faults out.old) (K.held out.old) (K.faults out.old)) → IsPlain program →
        (bench.new ≡ bench.old) × (machine.new.table ≡ machine.old.table) }
    ensures ends { StepsEnd machine.old machine.new steps
        (sink_call K.held K.faults out.old out.new) bench.old.left bench.new.left
        (⟦<Bench as Shown>⟧.all bench.old) (⟦<Bench as Shown>⟧.all bench.new) result }

    // a device that failed isn't reported as out of memory
    ensures memory { result ≡ Ran.NoMemory → bench.new.left ≡ bench.old.left }
{
    let left = bench.left;
    for turn in 0..steps {
        let outcome = match make_turn(machine, bench, out) {
            Ok(outcome) => outcome,
            Err(came) => return came,
        };
        match outcome {
            StepOutcome::On | StepOutcome::Shown => {}
            StepOutcome::Over(ending) => return Ran::Ended(ending),
            StepOutcome::Failed => {
                return device_fault(alloc, room, bench, left.saturating_sub(1));
            }
        }
    }
    Ran::Budget
}

fn some_open(table: &FileTable) -> bool
    ensures { result ≡ some_open table.now.rows }
{
    table.rows.as_slice().iter().any(|row| row.how.is_some())
}

fn breaks_off(ran: &Ran) -> bool
    ensures { result ≡ breaks_off ran.now }
{
    match ran {
        Ran::Ended(_) => false,
        Ran::Budget => false,
        Ran::DeviceFault(_) => true,
        Ran::WriteFault => true,
        Ran::NoMemory => true,
    }
}

// Closes the files that are open, on the devices that are left. A device that fails there is
// reported, unless the run broke off before.
fn close_files(
    alloc: Global,
    room: &mut Vec<u8>,
    machine: &mut Machine,
    bench: &mut Bench,
    ran: Ran,
) -> Ran
    ensures shut { some_open machine.old.table.rows ≡ false →
        (result ≡ ran) × (bench.new ≡ bench.old) }
    ensures cause { result ≡ Ran.WriteFault → ran ≡ Ran.WriteFault }
    ensures ends { (start : Machine) (steps : ℕ) (sink : SinkCall) (left : ℕ) (old : List Seen) →
        machine.old.plan ≡ start.plan → length start.plan.program.now.files < 2 ^ 32 →
        StepsEnd start machine.old steps sink left bench.old.left old
        (⟦<Bench as Shown>⟧.all bench.old) ran →
        FilesEnd start steps sink left bench.new.left old
        (⟦<Bench as Shown>⟧.all bench.new) result }

    // a device that failed isn't reported as out of memory
    ensures memory { length machine.old.plan.program.now.files < 2 ^ 32 →
        NamesFit (vec_capacity room.old) (⟦<Bench as Shown>⟧.all bench.old) →
        result ≡ Ran.NoMemory → ran ≡ Ran.NoMemory }
{
    if !some_open(&machine.table) {
        return ran;
    }
    let left = bench.left;
    let files = machine.plan.program.files.as_slice();
    let failed = close_left(bench, &mut machine.table, files);
    if failed && !breaks_off(&ran) && left > 0 {
        device_fault(alloc, room, bench, left - 1)
    } else {
        ran
    }
}

/// Runs a program over a bench for at most so many steps. What it displays goes to `out`, in which
/// room is made before each display. At the end the files that it left open are closed.
pub fn run<K: Sink>(
    alloc: Global,
    program: &Program,
    bench: &mut Bench,
    out: &mut K,
    steps: u64,
) -> Ran
    requires within { bench.old.left ≤ vec_len bench.old.devices }
    ensures run { (files : Files) → IsPlain program.now → RunsAs program.now files steps
        (sink_call K.held K.faults out.old out.new) result }

    // what is left of the bench; where the files of the devices that the program uses are known,
    // they are as its run leaves them, and none that it opened is open
    ensures ends { RunEnds program.now steps (sink_call K.held K.faults out.old out.new)
        bench.old.left bench.new.left (⟦<Bench as Shown>⟧.all bench.old)
        (⟦<Bench as Shown>⟧.all bench.new) result }
    ensures cause { result ≡ Ran.WriteFault → Rose (K.faults out.old) (K.faults out.new) }
    ensures falls { RunFalls result bench.old.left bench.new.left (⟦<Bench as Shown>⟧.all bench.old)
        (⟦<Bench as Shown>⟧.all bench.new) }

    // without statements on files the devices aren't used
    ensures kept { IsPlain program.now → bench.new ≡ bench.old }
{
    if program.entries.len() >= 1 << 31 {
        return Ran::NoMemory;
    }
    let Ok(mut machine) = start(alloc, program) else {
        return Ran::NoMemory;
    };
    let Ok(mut room) = name_room(alloc, bench) else {
        return Ran::NoMemory;
    };
    let ran = run_on(alloc, &mut room, &mut machine, bench, out, steps);
    close_files(alloc, &mut room, &mut machine, bench, ran)
}
