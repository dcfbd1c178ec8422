//! OPEN.

ghost use Rattle.std.specs.Prelude.{◌≡◌, ◌<◌, ◌^◌, Some, length, slice_get, slice_set, Ok};
ghost use Rattle.file_model.specs.Attempts.{Address, opened_at};
ghost use Rattle.file_model.specs.Status.{opened_row};
ghost use Rattle.file_model.specs.World.{World};
ghost use Rattle.file_model.specs.operations.Calls.{Breaks, Comes, Leaves, Notes, addresses_of};
ghost use Rattle.file_model.specs.operations.Standing.{IsTold, Stands};
ghost use Rattle.file_model.specs.operations.Seen.{device_found};

use crate::operations::address::{device_of, is_refused, name_of};
use crate::operations::calls::open_at;
use crate::operations::fault::FileFault;
use crate::operations::finding::first_of;
use crate::operations::noting::noted;
use crate::operations::taking::fail;
use crate::operations::watched::Shown;
use crate::{Bench, FileTable, Opened};
use cob_tree::{FileEntry, How};

fn opened(table: &mut FileTable, file: u32, how: How) -> Result<u8, FileFault>
    requires { file < length table.old.rows }
    ensures rows { length table.new.rows ≡ length table.old.rows }
    ensures answer { result ≡ Ok 0 }
    ensures table { table.new.rows ≡ slice_set table.old.rows file (opened_row how) }
{
    table.note_open(file, how);
    Ok(0)
}

/// OPEN: status 41 where the file is open; 30 where its name can't be opened, another file of the
/// program is open there, or no device of the name is on the bench; 35 where it is missing.
pub fn open(
    bench: &mut Bench,
    table: &mut FileTable,
    files: &[FileEntry],
    file: u32,
    how: How,
) -> Result<u8, FileFault>
    requires rows { length table.old.rows ≡ length files.now }
    requires few { length files.now < 2 ^ 32 }
    requires file { file < length files.now }
    ensures rows { length table.new.rows ≡ length table.old.rows }
    ensures bench { (address : Address) → slice_get (addresses_of files.now) file ≡ Some address →
        Leaves result address.device bench.old.left bench.new.left
        (⟦<Bench as Shown>⟧.all bench.old) (⟦<Bench as Shown>⟧.all bench.new) }
    ensures notes { (address : Address) → slice_get (addresses_of files.now) file ≡ Some address →
        Notes result file address.device (addresses_of files.now) table.old.rows table.new.rows }
    ensures world { (world : World) (address : Address) →
        slice_get (addresses_of files.now) file ≡ Some address →
        Stands (addresses_of files.now) (⟦<Bench as Shown>⟧.on bench.old) table.old.rows world →
        IsTold (device_found address.device (⟦<Bench as Shown>⟧.on bench.old)) →
        Comes result (addresses_of files.now) address.device (⟦<Bench as Shown>⟧.on bench.new)
        table.new.rows world (opened_at world (addresses_of files.now) file address how) }
    ensures gone { (world : World) (address : Address) →
        slice_get (addresses_of files.now) file ≡ Some address →
        Stands (addresses_of files.now) (⟦<Bench as Shown>⟧.on bench.old) table.old.rows world →
        Breaks result (addresses_of files.now) address.device (⟦<Bench as Shown>⟧.on bench.new)
        table.new.rows world }
{
    let status = table.may_open(file);
    if status != 0 {
        return noted(table, file, status);
    }
    let assign = files[file as usize].assign.as_slice();
    if is_refused(files, table.rows.as_slice(), assign) {
        return noted(table, file, 30);
    }
    match first_of(bench, device_of(assign)) {
        None => noted(table, file, 30),
        Some(at) => match open_at(bench, at, name_of(assign), how) {
            Opened::Ready => opened(table, file, how),
            Opened::Missing => noted(table, file, 35),
            Opened::Failed => fail(bench, table, files, at),
            Opened::NoMemory => Err(FileFault::NoMemory),
        },
    }
}
