//! CLOSE, and the end of a run.

ghost use Rattle.std.specs.Prelude.{ℕ, suc, List, ◌≡◌, ◌≢◌, ◌<◌, ◌^◌, Some, length, slice_get, slice_set, Ok, Err};
ghost use Rattle.file_model.specs.Status.{closed_row};
ghost use Rattle.file_model.specs.Attempts.{Address, closed_at};
ghost use Rattle.file_model.specs.World.{World};
ghost use Rattle.file_model.specs.operations.Calls.{Comes, Leaves, Notes, addresses_of};
ghost use Rattle.file_model.specs.operations.Falling.{AreShut, LeftOf, is_used};
ghost use Rattle.file_model.specs.operations.Seen.{Seen, device_found};
ghost use Rattle.file_model.specs.operations.Shutting.{Closes, IsShutOn, Shuts};
ghost use Rattle.file_model.specs.operations.Standing.{Stands};

use crate::operations::address::{device_of, name_of};
use crate::operations::calls::close_at;
use crate::operations::fault::FileFault;
use crate::operations::finding::first_of;
use crate::operations::noting::noted;
use crate::operations::taking::fail;
use crate::operations::watched::Shown;
use crate::{Bench, FileTable, Put};
use cob_tree::FileEntry;

fn shut(table: &mut FileTable, file: u32) -> Result<u8, FileFault>
    requires { file < length table.old.rows }
    ensures rows { length table.new.rows ≡ length table.old.rows }
    ensures answer { result ≡ Ok 0 }
    ensures table { table.new.rows ≡ slice_set table.old.rows file closed_row }
{
    table.note_close(file);
    Ok(0)
}

/// CLOSE: status 42 where the file isn't open. It allocates nothing.
pub fn close(
    bench: &mut Bench,
    table: &mut FileTable,
    files: &[FileEntry],
    file: u32,
) -> Result<u8, FileFault>
    requires rows { length table.old.rows ≡ length files.now }
    requires few { length files.now < 2 ^ 32 }
    requires file { file < length files.now }
    ensures rows { length table.new.rows ≡ length table.old.rows }
    ensures memory { result ≢ Err FileFault.NoMemory }
    ensures bench { (address : Address) → slice_get (addresses_of files.now) file ≡ Some address →
        Leaves result address.device bench.old.left bench.new.left
        (⟦<Bench as Shown>⟧.all bench.old) (⟦<Bench as Shown>⟧.all bench.new) }
    ensures notes { (address : Address) → slice_get (addresses_of files.now) file ≡ Some address →
        Notes result file address.device (addresses_of files.now) table.old.rows table.new.rows }
    ensures world { (world : World) (address : Address) →
        slice_get (addresses_of files.now) file ≡ Some address →
        Stands (addresses_of files.now) (⟦<Bench as Shown>⟧.on bench.old) table.old.rows world →
        Comes result (addresses_of files.now) address.device (⟦<Bench as Shown>⟧.on bench.new)
        table.new.rows world (closed_at world file) }
    ensures shut { (address : Address) → slice_get (addresses_of files.now) file ≡ Some address →
        result ≡ Ok 0 → IsShutOn (device_found address.device (⟦<Bench as Shown>⟧.on bench.new))
        address.name }
    ensures others { (device name : List ℕ) → result ≢ Err FileFault.Device → IsShutOn (device_found device
        (⟦<Bench as Shown>⟧.on bench.old)) name → IsShutOn (device_found device
        (⟦<Bench as Shown>⟧.on bench.new)) name }
{
    let status = table.may_close(file);
    if status != 0 {
        return noted(table, file, status);
    }
    let assign = files[file as usize].assign.as_slice();
    match first_of(bench, device_of(assign)) {
        None => noted(table, file, 30),
        Some(at) => match close_at(bench, at, name_of(assign)) {
            Put::Done => shut(table, file),
            Put::Failed => fail(bench, table, files, at),
            Put::NoMemory => Err(FileFault::NoMemory),
        },
    }
}

// Closes a file where it is open, and says whether its device failed.
fn close_if_open(bench: &mut Bench, table: &mut FileTable, files: &[FileEntry], file: u32) -> bool
    requires rows { length table.old.rows ≡ length files.now }
    requires few { length files.now < 2 ^ 32 }
    requires file { file < length files.now }
    ensures rows { length table.new.rows ≡ length table.old.rows }
    ensures shuts { (gone : List (List ℕ)) (left : ℕ) (old : List Seen) →
        AreShut gone (addresses_of files.now) table.old.rows →
        LeftOf (is_used (addresses_of files.now)) gone left bench.old.left old
        (⟦<Bench as Shown>⟧.all bench.old) →
        Shuts file (suc file) result (addresses_of files.now) gone left
        bench.old.left bench.new.left old (⟦<Bench as Shown>⟧.all bench.old)
        (⟦<Bench as Shown>⟧.all bench.new) table.old.rows table.new.rows }
{
    if table.may_close(file) != 0 {
        return false;
    }
    match close(bench, table, files, file) {
        Ok(_) => false,
        Err(FileFault::Device) => true,
        Err(FileFault::NoMemory) => false,
    }
}

/// Closes every file that is open, in their order, on the devices that are left, and says whether a
/// device failed.
pub fn close_open(bench: &mut Bench, table: &mut FileTable, files: &[FileEntry]) -> bool
    requires rows { length table.old.rows ≡ length files.now }
    requires few { length files.now < 2 ^ 32 }
    ensures rows { length table.new.rows ≡ length table.old.rows }

    // where devices may have failed before, none of which has an open file
    ensures closes { (gone : List (List ℕ)) (left : ℕ) (old : List Seen) →
        AreShut gone (addresses_of files.now) table.old.rows →
        LeftOf (is_used (addresses_of files.now)) gone left bench.old.left old
        (⟦<Bench as Shown>⟧.all bench.old) →
        Closes result (addresses_of files.now) gone left bench.old.left bench.new.left old
        (⟦<Bench as Shown>⟧.all bench.old) (⟦<Bench as Shown>⟧.all bench.new) table.old.rows }
{
    let mut failed = false;
    for file in 0..files.len() {
        if close_if_open(bench, table, files, file as u32) {
            failed = true;
        }
    }
    failed
}
