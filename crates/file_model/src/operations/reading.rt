//! READ.

ghost use Rattle.std.specs.Prelude.{◌≡◌, ◌==◌, if◌then◌else◌, true, false, ◌≤◌, ◌<◌, ◌^◌, IfSome, Some, length, slice_get, slice_set, take, Ok};
ghost use Rattle.file_model.specs.Attempts.{Address, padded_to, read_at};
ghost use Rattle.file_model.specs.Status.{read_row};
ghost use Rattle.file_model.specs.World.{World};
ghost use Rattle.file_model.specs.operations.Calls.{Breaks, Comes, Leaves, Notes, addresses_of};
ghost use Rattle.file_model.specs.operations.Seen.{device_found};
ghost use Rattle.file_model.specs.operations.Standing.{IsTold, Stands};

use crate::operations::address::{device_of, name_of};
use crate::operations::calls::read_at;
use crate::operations::fault::FileFault;
use crate::operations::finding::first_of;
use crate::operations::noting::noted;
use crate::operations::taking::fail;
use crate::operations::watched::Shown;
use crate::{Bench, FileTable, Got};
use cob_tree::FileEntry;

// Fills the rest after so many bytes with spaces.
fn pad(into: &mut [u8], from: usize)
    requires { from ≤ length into.old }
    ensures { into.new ≡ padded_to (length into.old) (take from into.old) }
{
    into[from..].fill(b' ');
}

fn ended(table: &mut FileTable, file: u32) -> Result<u8, FileFault>
    requires { file < length table.old.rows }
    ensures rows { length table.new.rows ≡ length table.old.rows }
    ensures answer { result ≡ Ok 10 }
    ensures table { IfSome (slice_get table.old.rows file)
        (λ row. table.new.rows ≡ slice_set table.old.rows file (read_row true row)) }
{
    table.note_read(file, true);
    Ok(10)
}

// Notes what a READ gave: no bytes are the end.
fn given(table: &mut FileTable, file: u32, into: &mut [u8], size: usize) -> Result<u8, FileFault>
    requires file { file < length table.old.rows }
    requires size { size ≤ length into.old }
    ensures rows { length table.new.rows ≡ length table.old.rows }
    ensures answer { result ≡ Ok (if size == 0 then 10 else 0) }
    ensures table { IfSome (slice_get table.old.rows file)
        (λ row. table.new.rows ≡ slice_set table.old.rows file (read_row (size == 0) row)) }
    ensures record { (size == 0) ≡ false →
        into.new ≡ padded_to (length into.old) (take size into.old) }
{
    if size == 0 {
        return ended(table, file);
    }
    pad(into, size);
    table.note_read(file, false);
    Ok(0)
}

/// READ: status 47 unless the file is open as INPUT or I-O, 46 after its end, and 10 at its end.
/// With status 0 `into` has the record, with spaces after a short one.
pub fn read(
    bench: &mut Bench,
    table: &mut FileTable,
    files: &[FileEntry],
    file: u32,
    into: &mut [u8],
) -> Result<u8, FileFault>
    requires rows { length table.old.rows ≡ length files.now }
    requires few { length files.now < 2 ^ 32 }
    requires file { file < length files.now }
    ensures rows { length table.new.rows ≡ length table.old.rows }
    ensures bench { (address : Address) → slice_get (addresses_of files.now) file ≡ Some address →
        Leaves result address.device bench.old.left bench.new.left
        (⟦<Bench as Shown>⟧.all bench.old) (⟦<Bench as Shown>⟧.all bench.new) }
    ensures notes { (address : Address) → slice_get (addresses_of files.now) file ≡ Some address →
        Notes result file address.device (addresses_of files.now) table.old.rows table.new.rows }
    ensures world { (world : World) (address : Address) →
        slice_get (addresses_of files.now) file ≡ Some address →
        Stands (addresses_of files.now) (⟦<Bench as Shown>⟧.on bench.old) table.old.rows world →
        IsTold (device_found address.device (⟦<Bench as Shown>⟧.on bench.old)) →
        Comes result (addresses_of files.now) address.device (⟦<Bench as Shown>⟧.on bench.new)
        table.new.rows world (read_at world file address (length into.old)) }
    ensures record { (world : World) (address : Address) →
        slice_get (addresses_of files.now) file ≡ Some address →
        Stands (addresses_of files.now) (⟦<Bench as Shown>⟧.on bench.old) table.old.rows world →
        IsTold (device_found address.device (⟦<Bench as Shown>⟧.on bench.old)) →
        result ≡ Ok 0 →
        into.new ≡ (read_at world file address (length into.old)).bytes }
    ensures gone { (world : World) (address : Address) →
        slice_get (addresses_of files.now) file ≡ Some address →
        Stands (addresses_of files.now) (⟦<Bench as Shown>⟧.on bench.old) table.old.rows world →
        Breaks result (addresses_of files.now) address.device (⟦<Bench as Shown>⟧.on bench.new)
        table.new.rows world }
{
    let status = table.may_read(file);
    if status != 0 {
        return noted(table, file, status);
    }
    let assign = files[file as usize].assign.as_slice();
    match first_of(bench, device_of(assign)) {
        None => noted(table, file, 30),
        Some(at) => match read_at(bench, at, name_of(assign), into) {
            Got::Bytes(size) => given(table, file, into, size),
            Got::End => ended(table, file),
            Got::Failed => fail(bench, table, files, at),
        },
    }
}
