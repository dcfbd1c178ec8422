//! OPEN, CLOSE, READ, WRITE and REWRITE.

ghost use Rattle.std.specs.Prelude.{◌≡◌, ◌⊎◌, ◌<◌, ◌≤◌, ◌==◌, ◌&&◌, [], ◌∷◌, IfErr, IfOk, IsTrue, None, Ok, if◌then◌else◌, length, option_copied, slice_get, vec_capacity, vec_len};
ghost use Rattle.cob_store.specs.Store.{fitted, put_at};
ghost use Rattle.file_model.specs.Attempts.{read_at};
ghost use Rattle.file_model.specs.World.{World};
ghost use Rattle.meanings.specs.statements.Does.{declared_with};
ghost use Rattle.meanings.specs.statements.Filing.{Chose, Went, address_by, each_file, from_by, opened, read, rewritten, shut, written};
ghost use Rattle.cob_act.specs.files.Ends.{DoneOver, ended_as};
ghost use Rattle.cob_act.specs.files.Over.{BreaksIn, Did, EndsAs, IsOver, MovedFrom, PutsOut, Stays, StopsAmong, Tries, read_then};
ghost use Rattle.cob_act.specs.files.Work.{Keeps, KeepsMore};

use crate::ActOutcome;
use crate::files::desk::{close, open, read, rewrite, write};
use crate::files::record::{file_of, moved_into, moved_out, record_spot, take_record};
use crate::files::status::{settled, status_spot};
use crate::files::work::{FileVerb, FileWork};
use cob_base::NoMemory;
use cob_store::{Areas, Spot, Store};
use cob_tree::{Abend, FileEntry, Opening, Operand, Place, Program};
use file_model::operations::{FileFault, Shown};
use file_model::{Bench, FileTable};

// OPEN of one file.
#[tactic(auto, using(crate::proofs::files_lemmas::DeskLemmas::one_operation))]
fn opened(
    program: &Program,
    areas: &Areas,
    store: &mut Store,
    bench: &mut Bench,
    table: &mut FileTable,
    opening: Opening,
    work: &mut FileWork,
) -> Result<ActOutcome, FileFault>
    ensures bench { DoneOver result program.now.files bench.old.left bench.new.left
        (⟦<Bench as Shown>⟧.all bench.old) (⟦<Bench as Shown>⟧.all bench.new) table.new.rows }
    ensures does { (world : World) → IsOver program.now.files (⟦<Bench as Shown>⟧.on bench.old)
        table.old.rows world →
        Did program.now.files result world
        (opened (declared_with program.now areas.now) store.old world opening)
        store.new (⟦<Bench as Shown>⟧.on bench.new) table.new.rows }
    ensures breaks { (world : World) → IsOver program.now.files (⟦<Bench as Shown>⟧.on bench.old)
        table.old.rows world →
        Stays result program.now.files world bench.new.left
        (⟦<Bench as Shown>⟧.all bench.new) table.new.rows }
    ensures kept { IfErr result (λ fault. store.new ≡ store.old) }
    ensures logged { (world : World) → IsOver program.now.files (⟦<Bench as Shown>⟧.on bench.old)
        table.old.rows world → KeepsMore result work.old work.new
        (opened (declared_with program.now areas.now) store.old world opening).operations }
    ensures keeps { work.new.keeps ≡ work.old.keeps }
{
    match status_spot(program, areas, store, opening.file) {
        Err(abend) => Ok(ActOutcome::Abended(abend)),
        Ok(item) => {
            work.ready()?;
            let status = open(bench, table, program.files.as_slice(), opening)?;
            work.note(FileVerb::Open, opening.file, status);
            Ok(settled(store, item, false, status))
        }
    }
}

/// Does OPEN: each file in turn, up to one that ends the run.
pub fn all_opened(
    program: &Program,
    areas: &Areas,
    store: &mut Store,
    bench: &mut Bench,
    table: &mut FileTable,
    openings: &[Opening],
    work: &mut FileWork,
) -> Result<ActOutcome, FileFault>
    requires within { bench.old.left ≤ vec_len bench.old.devices }
    ensures bench { DoneOver result program.now.files bench.old.left bench.new.left
        (⟦<Bench as Shown>⟧.all bench.old) (⟦<Bench as Shown>⟧.all bench.new) table.new.rows }
    ensures does { (world : World) → IsOver program.now.files (⟦<Bench as Shown>⟧.on bench.old)
        table.old.rows world →
        Did program.now.files result world
        (each_file (opened (declared_with program.now areas.now)) store.old world openings.now)
        store.new (⟦<Bench as Shown>⟧.on bench.new) table.new.rows }
    ensures breaks { (world : World) → IsOver program.now.files (⟦<Bench as Shown>⟧.on bench.old)
        table.old.rows world →
        BreaksIn result program.now.files world
        (each_file (opened (declared_with program.now areas.now)) store.old world openings.now)
        bench.new.left (⟦<Bench as Shown>⟧.all bench.new) table.new.rows }

    // the store is as those before the one that broke off left it
    ensures kept { (world : World) → IsOver program.now.files (⟦<Bench as Shown>⟧.on bench.old)
        table.old.rows world → IfErr result (λ fault. StopsAmong
        (opened (declared_with program.now areas.now))
        (each_file (opened (declared_with program.now areas.now)) store.old world openings.now)
        world openings.now store.new) }
    ensures logged { (world : World) → IsOver program.now.files (⟦<Bench as Shown>⟧.on bench.old)
        table.old.rows world → Keeps result work.old work.new
        (each_file (opened (declared_with program.now areas.now)) store.old world
        openings.now).operations }
    ensures keeps { work.new.keeps ≡ work.old.keeps }
{
    for opening in openings {
        if let ActOutcome::Abended(abend) = opened(
            program, areas, store, bench, table, *opening, work,
        )? {
            return Ok(ActOutcome::Abended(abend));
        }
    }
    Ok(ActOutcome::Went)
}

// CLOSE of one file.
#[tactic(auto, using(crate::proofs::files_lemmas::DeskLemmas::one_operation))]
fn shut(
    program: &Program,
    areas: &Areas,
    store: &mut Store,
    bench: &mut Bench,
    table: &mut FileTable,
    file: u32,
    work: &mut FileWork,
) -> Result<ActOutcome, FileFault>
    ensures bench { DoneOver result program.now.files bench.old.left bench.new.left
        (⟦<Bench as Shown>⟧.all bench.old) (⟦<Bench as Shown>⟧.all bench.new) table.new.rows }
    ensures does { (world : World) → IsOver program.now.files (⟦<Bench as Shown>⟧.on bench.old)
        table.old.rows world →
        Did program.now.files result world
        (shut (declared_with program.now areas.now) store.old world file)
        store.new (⟦<Bench as Shown>⟧.on bench.new) table.new.rows }
    ensures breaks { (world : World) → IsOver program.now.files (⟦<Bench as Shown>⟧.on bench.old)
        table.old.rows world →
        Stays result program.now.files world bench.new.left
        (⟦<Bench as Shown>⟧.all bench.new) table.new.rows }
    ensures kept { IfErr result (λ fault. store.new ≡ store.old) }
    ensures logged { (world : World) → IsOver program.now.files (⟦<Bench as Shown>⟧.on bench.old)
        table.old.rows world → KeepsMore result work.old work.new
        (shut (declared_with program.now areas.now) store.old world file).operations }
    ensures keeps { work.new.keeps ≡ work.old.keeps }
{
    match status_spot(program, areas, store, file) {
        Err(abend) => Ok(ActOutcome::Abended(abend)),
        Ok(item) => {
            work.ready()?;
            let status = close(bench, table, program.files.as_slice(), file)?;
            work.note(FileVerb::Close, file, status);
            Ok(settled(store, item, false, status))
        }
    }
}

/// Does CLOSE: each file in turn, up to one that ends the run.
pub fn all_shut(
    program: &Program,
    areas: &Areas,
    store: &mut Store,
    bench: &mut Bench,
    table: &mut FileTable,
    files: &[u32],
    work: &mut FileWork,
) -> Result<ActOutcome, FileFault>
    requires within { bench.old.left ≤ vec_len bench.old.devices }
    ensures bench { DoneOver result program.now.files bench.old.left bench.new.left
        (⟦<Bench as Shown>⟧.all bench.old) (⟦<Bench as Shown>⟧.all bench.new) table.new.rows }
    ensures does { (world : World) → IsOver program.now.files (⟦<Bench as Shown>⟧.on bench.old)
        table.old.rows world →
        Did program.now.files result world
        (each_file (shut (declared_with program.now areas.now)) store.old world files.now)
        store.new (⟦<Bench as Shown>⟧.on bench.new) table.new.rows }
    ensures breaks { (world : World) → IsOver program.now.files (⟦<Bench as Shown>⟧.on bench.old)
        table.old.rows world →
        BreaksIn result program.now.files world
        (each_file (shut (declared_with program.now areas.now)) store.old world files.now)
        bench.new.left (⟦<Bench as Shown>⟧.all bench.new) table.new.rows }

    // the store is as those before the one that broke off left it
    ensures kept { (world : World) → IsOver program.now.files (⟦<Bench as Shown>⟧.on bench.old)
        table.old.rows world → IfErr result (λ fault. StopsAmong
        (shut (declared_with program.now areas.now))
        (each_file (shut (declared_with program.now areas.now)) store.old world files.now)
        world files.now store.new) }
    ensures logged { (world : World) → IsOver program.now.files (⟦<Bench as Shown>⟧.on bench.old)
        table.old.rows world → Keeps result work.old work.new
        (each_file (shut (declared_with program.now areas.now)) store.old world
        files.now).operations }
    ensures keeps { work.new.keeps ≡ work.old.keeps }
{
    for file in files {
        if let ActOutcome::Abended(abend) = shut(
            program, areas, store, bench, table, *file, work,
        )? {
            return Ok(ActOutcome::Abended(abend));
        }
    }
    Ok(ActOutcome::Went)
}

fn make_room(bytes: &mut Vec<u8>, size: usize) -> Result<(), NoMemory>
    ensures { IfOk result (λ u. length bytes.new.items ≡ size) }
{
    bytes.clear();
    bytes.resize(size, b' ')?;
    Ok(())
}

/// READ, as its program has it.
#[derive(Clone, Copy)]
pub struct ReadRequest<'a> {
    pub file: u32,
    pub into: Option<&'a Place>,
    /// It has AT END.
    pub at_end: bool,
    /// It has AT END or NOT AT END.
    pub arms: bool,
}

// Puts the record that came, before the status is put.
fn record_put(store: &mut Store, spot: Spot, status: u8, bytes: &[u8])
    ensures { store.new ≡ (if status == 0
        then put_at store.old spot (fitted spot.length bytes.now) else store.old) }
{
    if status == 0 {
        store.put_bytes(spot, bytes);
    }
}

fn chosen(arms: bool, arm: usize) -> ActOutcome
    ensures { ended_as result ≡ (if arms then Chose arm else Went) }
{
    if arms {
        ActOutcome::Chose(arm)
    } else {
        ActOutcome::Went
    }
}

// What follows the status: INTO where a record came, and an arm where there are arms.
fn read_end(
    program: &Program,
    areas: &Areas,
    store: &mut Store,
    scratch: &mut Vec<u8>,
    reading: ReadRequest,
    status: u8,
) -> Result<ActOutcome, NoMemory>
    ensures does { IfOk result (λ done. EndsAs done store.new
        (read_then (declared_with program.now areas.now) reading.entry.file
        (option_copied reading.entry.into) reading.entry.arms status store.old)) }
    ensures kept { IfErr result (λ e. store.new ≡ store.old) }
{
    if status != 0 {
        return Ok(chosen(reading.arms, 1));
    }
    match moved_into(program, areas, store, scratch, reading.file, reading.into)? {
        Err(abend) => Ok(ActOutcome::Abended(abend)),
        Ok(()) => Ok(chosen(reading.arms, 2)),
    }
}

// Reads the next record of a file, which gets the length of the record area, and keeps the
// operation.
fn next_record(
    bench: &mut Bench,
    table: &mut FileTable,
    files: &[FileEntry],
    file: u32,
    work: &mut FileWork,
    size: usize,
) -> Result<u8, FileFault>
    ensures bench { DoneOver result files.now bench.old.left bench.new.left
        (⟦<Bench as Shown>⟧.all bench.old) (⟦<Bench as Shown>⟧.all bench.new) table.new.rows }
    ensures does { (world : World) → IsOver files.now (⟦<Bench as Shown>⟧.on bench.old)
        table.old.rows world →
        Tries files.now result
        (read_at world file (address_by (slice_get files.now file)) size)
        (⟦<Bench as Shown>⟧.on bench.new) table.new.rows }
    ensures came { (world : World) → IsOver files.now (⟦<Bench as Shown>⟧.on bench.old)
        table.old.rows world → result ≡ Ok 0 → work.new.bytes.items
        ≡ (read_at world file (address_by (slice_get files.now file)) size).bytes }
    ensures room { IfOk result (λ status. length work.new.bytes.items ≡ size) }
    ensures breaks { (world : World) → IsOver files.now (⟦<Bench as Shown>⟧.on bench.old)
        table.old.rows world →
        Stays result files.now world bench.new.left
        (⟦<Bench as Shown>⟧.all bench.new) table.new.rows }
    ensures logged { IfOk result (λ status. IsTrue work.old.keeps → work.old.done.items ≡ [] →
        work.new.done.items ≡ record { verb = FileVerb.Read; file = file; status = status } ∷ []) }
    ensures keeps { work.new.keeps ≡ work.old.keeps }
{
    make_room(&mut work.bytes, size)?;
    work.ready()?;
    let status = read(bench, table, files, file, work.bytes.as_mut_slice())?;
    work.note(FileVerb::Read, file, status);
    Ok(status)
}

// Whether AT END handles the status.
fn is_cared(at_end: bool, status: u8) -> bool
    ensures { result ≡ (at_end && status == 10) }
{
    at_end && status == 10
}

/// Does READ. It chooses arm 1 at the end, and 2 where a record came.
#[tactic(auto, using(crate::proofs::files_lemmas::BenchLemmas::nothing_asked))]
pub fn read_one(
    program: &Program,
    areas: &Areas,
    store: &mut Store,
    work: &mut FileWork,
    bench: &mut Bench,
    table: &mut FileTable,
    reading: ReadRequest,
) -> Result<ActOutcome, FileFault>
    requires within { bench.old.left ≤ vec_len bench.old.devices }
    ensures bench { DoneOver result program.now.files bench.old.left bench.new.left
        (⟦<Bench as Shown>⟧.all bench.old) (⟦<Bench as Shown>⟧.all bench.new) table.new.rows }
    ensures does { (world : World) → IsOver program.now.files (⟦<Bench as Shown>⟧.on bench.old)
        table.old.rows world →
        Did program.now.files result world
        (read (declared_with program.now areas.now) store.old world reading.entry.file
        (option_copied reading.entry.into) reading.entry.at_end reading.entry.arms)
        store.new (⟦<Bench as Shown>⟧.on bench.new) table.new.rows }
    ensures breaks { (world : World) → IsOver program.now.files (⟦<Bench as Shown>⟧.on bench.old)
        table.old.rows world →
        BreaksIn result program.now.files world
        (read (declared_with program.now areas.now) store.old world reading.entry.file
        (option_copied reading.entry.into) reading.entry.at_end reading.entry.arms)
        bench.new.left (⟦<Bench as Shown>⟧.all bench.new) table.new.rows }

    // the store is as it was, or as without INTO
    ensures kept { (world : World) → IsOver program.now.files (⟦<Bench as Shown>⟧.on bench.old)
        table.old.rows world → IfErr result (λ fault. (store.new ≡ store.old) ⊎ (store.new
        ≡ (read (declared_with program.now areas.now) store.old world reading.entry.file
        None reading.entry.at_end reading.entry.arms).store)) }
    ensures logged { (world : World) → IsOver program.now.files (⟦<Bench as Shown>⟧.on bench.old)
        table.old.rows world → Keeps result work.old work.new
        (read (declared_with program.now areas.now) store.old world reading.entry.file
        (option_copied reading.entry.into) reading.entry.at_end reading.entry.arms).operations }
    ensures keeps { work.new.keeps ≡ work.old.keeps }
{
    let item = match status_spot(program, areas, store, reading.file) {
        Err(abend) => return Ok(ActOutcome::Abended(abend)),
        Ok(item) => item,
    };
    let spot = record_spot(program, areas, reading.file);
    let files = program.files.as_slice();
    let status = next_record(
        bench,
        table,
        files,
        reading.file,
        work,
        spot.length as usize,
    )?;
    record_put(store, spot, status, work.bytes.as_slice());
    let cared = is_cared(reading.at_end, status);
    match settled(store, item, cared, status) {
        ActOutcome::Abended(abend) => Ok(ActOutcome::Abended(abend)),
        _ => Ok(read_end(program, areas, store, &mut work.scratch, reading, status)?),
    }
}

/// WRITE or REWRITE, as its program has it.
#[derive(Clone, Copy)]
pub struct WriteRequest<'a> {
    /// The entry of the record.
    pub entry: u32,
    pub from: Option<&'a Operand>,
}

// FROM; then the record that is to be written, and room to keep the operation.
fn put_out(
    program: &Program,
    areas: &Areas,
    store: &mut Store,
    work: &mut FileWork,
    entry: u32,
    from: Option<&Operand>,
) -> Result<Result<Option<Spot>, Abend>, NoMemory>
    ensures does { IfOk result (λ answer. PutsOut (declared_with program.now areas.now) entry
        (from_by (declared_with program.now areas.now) entry store.old (option_copied from.entry))
        answer store.new work.new.bytes.items) }
    ensures kept { IfErr result (λ e. MovedFrom
        (from_by (declared_with program.now areas.now) entry store.old (option_copied from.entry))
        store.old store.new) }
    ensures room { IfOk result (λ answer. IfOk answer (λ item. IsTrue work.old.keeps →
        vec_len work.new.done < vec_capacity work.new.done)) }
    ensures done { work.new.done.items ≡ work.old.done.items }
    ensures keeps { work.new.keeps ≡ work.old.keeps }
{
    if let Err(abend) = moved_out(program, areas, store, &mut work.scratch, entry, from)? {
        return Ok(Err(abend));
    }
    let file = file_of(program, areas, entry);
    let item = status_spot(program, areas, store, file);
    take_record(program, areas, store, file, entry, &mut work.bytes)?;
    work.ready()?;
    Ok(item)
}

/// Does WRITE of a record, after its FROM.
#[tactic(auto, using(crate::proofs::files_lemmas::BenchLemmas::nothing_asked))]
pub fn written(
    program: &Program,
    areas: &Areas,
    store: &mut Store,
    work: &mut FileWork,
    bench: &mut Bench,
    table: &mut FileTable,
    writing: WriteRequest,
) -> Result<ActOutcome, FileFault>
    requires within { bench.old.left ≤ vec_len bench.old.devices }
    ensures bench { DoneOver result program.now.files bench.old.left bench.new.left
        (⟦<Bench as Shown>⟧.all bench.old) (⟦<Bench as Shown>⟧.all bench.new) table.new.rows }
    ensures does { (world : World) → IsOver program.now.files (⟦<Bench as Shown>⟧.on bench.old)
        table.old.rows world →
        Did program.now.files result world
        (written (declared_with program.now areas.now) store.old world writing.entry.entry
        (option_copied writing.entry.from))
        store.new (⟦<Bench as Shown>⟧.on bench.new) table.new.rows }
    ensures breaks { (world : World) → IsOver program.now.files (⟦<Bench as Shown>⟧.on bench.old)
        table.old.rows world →
        BreaksIn result program.now.files world
        (written (declared_with program.now areas.now) store.old world writing.entry.entry
        (option_copied writing.entry.from))
        bench.new.left (⟦<Bench as Shown>⟧.all bench.new) table.new.rows }

    // the store is as it was, or as FROM left it
    ensures kept { IfErr result (λ fault. MovedFrom
        (from_by (declared_with program.now areas.now) writing.entry.entry store.old
        (option_copied writing.entry.from)) store.old store.new) }
    ensures logged { (world : World) → IsOver program.now.files (⟦<Bench as Shown>⟧.on bench.old)
        table.old.rows world → Keeps result work.old work.new
        (written (declared_with program.now areas.now) store.old world writing.entry.entry
        (option_copied writing.entry.from)).operations }
    ensures keeps { work.new.keeps ≡ work.old.keeps }
{
    match put_out(program, areas, store, work, writing.entry, writing.from)? {
        Err(abend) => Ok(ActOutcome::Abended(abend)),
        Ok(item) => {
            let file = file_of(program, areas, writing.entry);
            let files = program.files.as_slice();
            let status = write(bench, table, files, file, work.bytes.as_slice())?;
            work.note(FileVerb::Write, file, status);
            Ok(settled(store, item, false, status))
        }
    }
}

/// Does REWRITE of a record, after its FROM.
#[tactic(auto, using(crate::proofs::files_lemmas::BenchLemmas::nothing_asked))]
pub fn rewritten(
    program: &Program,
    areas: &Areas,
    store: &mut Store,
    work: &mut FileWork,
    bench: &mut Bench,
    table: &mut FileTable,
    writing: WriteRequest,
) -> Result<ActOutcome, FileFault>
    requires within { bench.old.left ≤ vec_len bench.old.devices }
    ensures bench { DoneOver result program.now.files bench.old.left bench.new.left
        (⟦<Bench as Shown>⟧.all bench.old) (⟦<Bench as Shown>⟧.all bench.new) table.new.rows }
    ensures does { (world : World) → IsOver program.now.files (⟦<Bench as Shown>⟧.on bench.old)
        table.old.rows world →
        Did program.now.files result world
        (rewritten (declared_with program.now areas.now) store.old world writing.entry.entry
        (option_copied writing.entry.from))
        store.new (⟦<Bench as Shown>⟧.on bench.new) table.new.rows }
    ensures breaks { (world : World) → IsOver program.now.files (⟦<Bench as Shown>⟧.on bench.old)
        table.old.rows world →
        BreaksIn result program.now.files world
        (rewritten (declared_with program.now areas.now) store.old world writing.entry.entry
        (option_copied writing.entry.from))
        bench.new.left (⟦<Bench as Shown>⟧.all bench.new) table.new.rows }

    // the store is as it was, or as FROM left it
    ensures kept { IfErr result (λ fault. MovedFrom
        (from_by (declared_with program.now areas.now) writing.entry.entry store.old
        (option_copied writing.entry.from)) store.old store.new) }
    ensures logged { (world : World) → IsOver program.now.files (⟦<Bench as Shown>⟧.on bench.old)
        table.old.rows world → Keeps result work.old work.new
        (rewritten (declared_with program.now areas.now) store.old world writing.entry.entry
        (option_copied writing.entry.from)).operations }
    ensures keeps { work.new.keeps ≡ work.old.keeps }
{
    match put_out(program, areas, store, work, writing.entry, writing.from)? {
        Err(abend) => Ok(ActOutcome::Abended(abend)),
        Ok(item) => {
            let file = file_of(program, areas, writing.entry);
            let files = program.files.as_slice();
            let status = rewrite(bench, table, files, file, work.bytes.as_slice())?;
            work.note(FileVerb::Rewrite, file, status);
            Ok(settled(store, item, false, status))
        }
    }
}
