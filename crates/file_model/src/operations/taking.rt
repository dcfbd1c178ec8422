//! A device that failed.

ghost use Rattle.std.specs.Prelude.{◌≡◌, ◌≤◌, ◌<◌, ◌^◌, IfSome, if◌then◌else◌, length, slice_get, slice_set, vec_len, Err};
ghost use Rattle.std.specs.Str.{bytes_eq};
ghost use Rattle.file_model.specs.Attempts.{address_of};
ghost use Rattle.file_model.specs.Status.{closed_row};
ghost use Rattle.file_model.specs.operations.Calls.{TakenOff, addresses_of};
ghost use Rattle.file_model.specs.operations.Standing.{rows_closed_on};

use crate::operations::address::device_of;
use crate::operations::calls::device_name;
use crate::operations::fault::FileFault;
use crate::operations::watched::Shown;
use crate::{Bench, FileTable};
use cob_tree::FileEntry;

// Takes a device off the bench: it becomes the first one after those that are left.
fn take_off(bench: &mut Bench, at: usize)
    requires { at < bench.old.left }
    ensures within { bench.new.left < vec_len bench.new.devices }
    ensures taken { TakenOff at bench.old.left bench.new.left (⟦<Bench as Shown>⟧.all bench.old)
        (⟦<Bench as Shown>⟧.all bench.new) }
{
    let left = bench.left;
    bench.devices[at..left].rotate_left(1);
    bench.left = left - 1;
}

// Closes a file of the program, where it is on that device.
fn close_row(table: &mut FileTable, file: u32, entry: &FileEntry, device: &[u8])
    requires { file < length table.old.rows }
    ensures { table.new.rows ≡ (if bytes_eq (address_of entry.now.assign).device device.now
        then slice_set table.old.rows file closed_row else table.old.rows) }
{
    if device_of(entry.assign.as_slice()) == device {
        table.note_close(file);
    }
}

// Closes the files of the program that are on a device.
fn close_rows(table: &mut FileTable, files: &[FileEntry], device: &[u8])
    requires rows { length files.now ≤ length table.old.rows }
    requires few { length files.now < 2 ^ 32 }
    ensures { table.new.rows ≡ rows_closed_on device.now (addresses_of files.now) table.old.rows }
{
    for file in 0..files.len() {
        close_row(table, file as u32, &files[file], device);
    }
}

/// A device failed: it is taken off the bench, and the files of the program on it are closed.
pub fn fail(
    bench: &mut Bench,
    table: &mut FileTable,
    files: &[FileEntry],
    at: usize,
) -> Result<u8, FileFault>
    requires place { at < bench.old.left }
    requires rows { length files.now ≤ length table.old.rows }
    requires few { length files.now < 2 ^ 32 }
    ensures rows { length table.new.rows ≡ length table.old.rows }
    ensures answer { result ≡ Err FileFault.Device }
    ensures bench { TakenOff at bench.old.left bench.new.left (⟦<Bench as Shown>⟧.all bench.old)
        (⟦<Bench as Shown>⟧.all bench.new) }
    ensures table { IfSome (slice_get (⟦<Bench as Shown>⟧.all bench.old) at)
        (λ device. table.new.rows
        ≡ rows_closed_on device.name (addresses_of files.now) table.old.rows) }
{
    take_off(bench, at);
    close_rows(table, files, device_name(&bench.devices[bench.left]));
    Err(FileFault::Device)
}
