//! Records: where they are, and what is moved to them and from them.

ghost use Rattle.std.specs.Prelude.{◌≡◌, ◌-◌, IfErr, IfOk, length, option_copied, slice_get};
ghost use Rattle.file_model.specs.Attempts.{padded_to};
ghost use Rattle.meanings.specs.statements.Does.{declared_with};
ghost use Rattle.meanings.specs.statements.Filing.{entry_bytes, file_by, file_of, first_entry, from_by, into_by, is_of_file, record_spot, root_by};
ghost use Rattle.cob_act.specs.Moving.{outcome_of};
ghost use Rattle.cob_act.specs.files.Record.{item_place};

use crate::moved;
use cob_base::{Items, NoMemory};
use cob_store::{Area, Areas, Spot, Store, area_at};
use cob_tree::{Abend, Entry, Operand, Place, Program};
use std::alloc::Global;
use std::slice::from_ref;

fn is_of_file(file: u32, of: Option<u32>) -> bool
    ensures { result ≡ is_of_file file of }
{
    match of {
        None => false,
        Some(other) => other == file,
    }
}

// The number of a file's first entry.
fn first_entry(file: u32, entries: &[Entry]) -> usize
    ensures { result ≡ first_entry file 0 entries.now }
{
    for (at, entry) in entries.iter().enumerate() {
        if is_of_file(file, entry.file) {
            return at;
        }
    }
    entries.len()
}

fn root_by(roots: &[u32], area: Option<&Area>) -> Spot
    ensures { result ≡ root_by roots.now (option_copied area.entry) }
{
    match area {
        None => Spot {
            root: 0,
            start: 0,
            length: 0,
        },
        Some(area) => {
            let length = match roots.get(area.root as usize) {
                None => 0,
                Some(size) => *size,
            };
            Spot {
                root: area.root,
                start: 0,
                length,
            }
        }
    }
}

/// The area of a file's records.
pub fn record_spot(program: &Program, areas: &Areas, file: u32) -> Spot
    ensures { result ≡ record_spot (declared_with program.now areas.now) file }
{
    let number = first_entry(file, program.entries.as_slice());
    root_by(areas.roots.as_slice(), areas.items.get(number))
}

fn file_by(entry: Option<&Entry>) -> Option<u32>
    ensures { result ≡ file_by (option_copied entry.entry) }
{
    match entry {
        None => None,
        Some(entry) => entry.file,
    }
}

/// The file that an entry belongs to.
pub fn file_of(program: &Program, areas: &Areas, entry: u32) -> u32
    ensures { result ≡ file_of (declared_with program.now areas.now) entry }
{
    match file_by(program.entries.get(entry as usize)) {
        None => 0,
        Some(file) => file,
    }
}

// An item as a place without subscripts and window.
fn item_place(alloc: Global, item: u32) -> Place
    ensures { result ≡ item_place item }
{
    Place {
        item,
        of: Items::new(alloc),
        subs: Items::new(alloc),
        window: None,
    }
}

/// INTO: a MOVE from the file's first record.
#[tactic(auto, using(crate::proofs::files_lemmas::RecordLemmas::moves_from))]
pub fn moved_into(
    program: &Program,
    areas: &Areas,
    store: &mut Store,
    scratch: &mut Vec<u8>,
    file: u32,
    into: Option<&Place>,
) -> Result<Result<(), Abend>, NoMemory>
    ensures does { IfOk result (λ answer. outcome_of store.new answer
        ≡ into_by (declared_with program.now areas.now) file store.old (option_copied into.entry)) }
    ensures kept { IfErr result (λ e. store.new ≡ store.old) }
{
    match into {
        None => Ok(Ok(())),
        Some(place) => {
            let Ok(record) = u32::try_from(first_entry(file, program.entries.as_slice())) else {
                return Err(NoMemory);
            };
            let from = Operand::Place(item_place(store.allocator(), record));
            moved(
                areas.items.as_slice(),
                store,
                scratch,
                &from,
                from_ref(place),
            )
        }
    }
}

/// FROM: a MOVE to the record.
#[tactic(auto, using(crate::proofs::files_lemmas::RecordLemmas::moves_to))]
pub fn moved_out(
    program: &Program,
    areas: &Areas,
    store: &mut Store,
    scratch: &mut Vec<u8>,
    entry: u32,
    from: Option<&Operand>,
) -> Result<Result<(), Abend>, NoMemory>
    ensures does { IfOk result (λ answer. outcome_of store.new answer
        ≡ from_by (declared_with program.now areas.now) entry store.old (option_copied from.entry)) }
    ensures kept { IfErr result (λ e. store.new ≡ store.old) }
{
    match from {
        None => Ok(Ok(())),
        Some(operand) => {
            let to = item_place(store.allocator(), entry);
            moved(
                areas.items.as_slice(),
                store,
                scratch,
                operand,
                from_ref(&to),
            )
        }
    }
}

fn pad_to(bytes: &mut Vec<u8>, size: usize) -> Result<(), NoMemory>
    ensures { IfOk result (λ u. bytes.new.items ≡ padded_to size bytes.old.items) }
{
    let had = bytes.len();
    if had < size {
        bytes.resize(size, b' ')?;
    }
    Ok(())
}

/// The bytes of a record, padded to the length of its file's area.
pub fn take_record(
    program: &Program,
    areas: &Areas,
    store: &Store,
    file: u32,
    entry: u32,
    into: &mut Vec<u8>,
) -> Result<(), NoMemory>
    ensures { IfOk result (λ u. into.new.items ≡ entry_bytes (declared_with program.now areas.now)
        file store.now (slice_get areas.now.items entry)) }
{
    into.clear();
    if let Some(area) = area_at(areas.items.as_slice(), entry) {
        let spot = Spot {
            root: area.root,
            start: area.start,
            length: area.size,
        };
        into.extend_from_slice(store.bytes(spot))?;
        pad_to(into, record_spot(program, areas, file).length as usize)?;
    }
    Ok(())
}
