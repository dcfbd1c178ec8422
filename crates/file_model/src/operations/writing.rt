//! WRITE and REWRITE.

ghost use Rattle.std.specs.Prelude.{◌≡◌, ◌<◌, ◌^◌, Some, length, slice_get};
ghost use Rattle.file_model.specs.Attempts.{Address, rewritten_at, written_at};
ghost use Rattle.file_model.specs.World.{World};
ghost use Rattle.file_model.specs.operations.Calls.{Comes, Leaves, Notes, addresses_of};
ghost use Rattle.file_model.specs.operations.Standing.{Stands};

use crate::operations::address::{device_of, name_of};
use crate::operations::calls::{rewrite_at, write_at};
use crate::operations::fault::FileFault;
use crate::operations::finding::first_of;
use crate::operations::noting::noted;
use crate::operations::taking::fail;
use crate::operations::watched::Shown;
use crate::{Bench, FileTable, Put};
use cob_tree::FileEntry;

/// WRITE: status 48 unless the file is open as OUTPUT or EXTEND.
pub fn write(
    bench: &mut Bench,
    table: &mut FileTable,
    files: &[FileEntry],
    file: u32,
    bytes: &[u8],
) -> Result<u8, FileFault>
    requires rows { length table.old.rows ≡ length files.now }
    requires few { length files.now < 2 ^ 32 }
    requires file { file < length files.now }
    ensures rows { length table.new.rows ≡ length table.old.rows }
    ensures bench { (address : Address) → slice_get (addresses_of files.now) file ≡ Some address →
        Leaves result address.device bench.old.left bench.new.left
        (⟦<Bench as Shown>⟧.all bench.old) (⟦<Bench as Shown>⟧.all bench.new) }
    ensures notes { (address : Address) → slice_get (addresses_of files.now) file ≡ Some address →
        Notes result file address.device (addresses_of files.now) table.old.rows table.new.rows }
    ensures world { (world : World) (address : Address) →
        slice_get (addresses_of files.now) file ≡ Some address →
        Stands (addresses_of files.now) (⟦<Bench as Shown>⟧.on bench.old) table.old.rows world →
        Comes result (addresses_of files.now) address.device (⟦<Bench as Shown>⟧.on bench.new)
        table.new.rows world (written_at world file address bytes.now) }
{
    let status = table.may_write(file);
    if status != 0 {
        return noted(table, file, status);
    }
    let assign = files[file as usize].assign.as_slice();
    match first_of(bench, device_of(assign)) {
        None => noted(table, file, 30),
        Some(at) => match write_at(bench, at, name_of(assign), bytes) {
            Put::Done => noted(table, file, 0),
            Put::Failed => fail(bench, table, files, at),
            Put::NoMemory => Err(FileFault::NoMemory),
        },
    }
}

/// REWRITE: status 49 unless the file is open as I-O, and 43 unless the last operation on it was a
/// READ that gave a record.
pub fn rewrite(
    bench: &mut Bench,
    table: &mut FileTable,
    files: &[FileEntry],
    file: u32,
    bytes: &[u8],
) -> Result<u8, FileFault>
    requires rows { length table.old.rows ≡ length files.now }
    requires few { length files.now < 2 ^ 32 }
    requires file { file < length files.now }
    ensures rows { length table.new.rows ≡ length table.old.rows }
    ensures bench { (address : Address) → slice_get (addresses_of files.now) file ≡ Some address →
        Leaves result address.device bench.old.left bench.new.left
        (⟦<Bench as Shown>⟧.all bench.old) (⟦<Bench as Shown>⟧.all bench.new) }
    ensures notes { (address : Address) → slice_get (addresses_of files.now) file ≡ Some address →
        Notes result file address.device (addresses_of files.now) table.old.rows table.new.rows }
    ensures world { (world : World) (address : Address) →
        slice_get (addresses_of files.now) file ≡ Some address →
        Stands (addresses_of files.now) (⟦<Bench as Shown>⟧.on bench.old) table.old.rows world →
        Comes result (addresses_of files.now) address.device (⟦<Bench as Shown>⟧.on bench.new)
        table.new.rows world (rewritten_at world file address bytes.now) }
{
    let status = table.may_rewrite(file);
    if status != 0 {
        return noted(table, file, status);
    }
    let assign = files[file as usize].assign.as_slice();
    match first_of(bench, device_of(assign)) {
        None => noted(table, file, 30),
        Some(at) => match rewrite_at(bench, at, name_of(assign), bytes) {
            Put::Done => noted(table, file, 0),
            Put::Failed => fail(bench, table, files, at),
            Put::NoMemory => Err(FileFault::NoMemory),
        },
    }
}
