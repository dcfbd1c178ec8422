//! The operations on files, by their number. A file that the program doesn't have is never open,
//! and has no name.

ghost use Rattle.std.specs.Prelude.{ℕ, List, ◌≡◌, ◌<◌, ◌≤◌, ◌^◌, IsTrue, Ok, length, slice_get, vec_len};
ghost use Rattle.file_model.specs.Attempts.{closed_at, opened_at, read_at, rewritten_at, written_at};
ghost use Rattle.file_model.specs.World.{World};
ghost use Rattle.file_model.specs.operations.Calls.{addresses_of};
ghost use Rattle.file_model.specs.operations.Falling.{AreShut, LeftOf, is_used};
ghost use Rattle.file_model.specs.operations.Seen.{Seen};
ghost use Rattle.file_model.specs.operations.Shutting.{Closes};
ghost use Rattle.meanings.specs.statements.Filing.{address_by};
ghost use Rattle.cob_act.specs.files.Ends.{DoneOver};
ghost use Rattle.cob_act.specs.files.Over.{IsOver, Stays, Tries};

use cob_tree::{FileEntry, Opening};
use file_model::operations::{FileFault, Shown};
use file_model::{Bench, FileTable};

// Whether the table has a row for each file.
fn has_rows(table: &FileTable, files: &[FileEntry]) -> bool
    ensures rows { IsTrue result → length table.now.rows ≡ length files.now }
    ensures few { IsTrue result → length files.now < 2 ^ 32 }
    ensures has { length table.now.rows ≡ length files.now → length files.now < 2 ^ 32 →
        IsTrue result }
{
    table.rows.len() == files.len() && files.len() < 1 << 32
}

// Whether the table has a row for each file, and this file is one of them.
fn has_row(table: &FileTable, files: &[FileEntry], file: u32) -> bool
    ensures rows { IsTrue result → length table.now.rows ≡ length files.now }
    ensures few { IsTrue result → length files.now < 2 ^ 32 }
    ensures file { IsTrue result → file < length files.now }
    ensures has { length table.now.rows ≡ length files.now → length files.now < 2 ^ 32 →
        file < length files.now → IsTrue result }
{
    has_rows(table, files) && (file as usize) < files.len()
}

/// OPEN of a file: its status, or why it broke off.
pub fn open(
    bench: &mut Bench,
    table: &mut FileTable,
    files: &[FileEntry],
    opening: Opening,
) -> Result<u8, FileFault>
    ensures bench { DoneOver result files.now bench.old.left bench.new.left
        (⟦<Bench as Shown>⟧.all bench.old) (⟦<Bench as Shown>⟧.all bench.new) table.new.rows }
    ensures does { (world : World) → IsOver files.now (⟦<Bench as Shown>⟧.on bench.old)
        table.old.rows world →
        Tries files.now result (opened_at world (addresses_of files.now) opening.file
        (address_by (slice_get files.now opening.file)) opening.how)
        (⟦<Bench as Shown>⟧.on bench.new) table.new.rows }
    ensures breaks { (world : World) → IsOver files.now (⟦<Bench as Shown>⟧.on bench.old)
        table.old.rows world →
        Stays result files.now world bench.new.left
        (⟦<Bench as Shown>⟧.all bench.new) table.new.rows }
{
    if !has_row(table, files, opening.file) {
        return Ok(30);
    }
    file_model::operations::open(bench, table, files, opening.file, opening.how)
}

/// CLOSE of a file: its status, or why it broke off.
pub fn close(
    bench: &mut Bench,
    table: &mut FileTable,
    files: &[FileEntry],
    file: u32,
) -> Result<u8, FileFault>
    ensures bench { DoneOver result files.now bench.old.left bench.new.left
        (⟦<Bench as Shown>⟧.all bench.old) (⟦<Bench as Shown>⟧.all bench.new) table.new.rows }
    ensures does { (world : World) → IsOver files.now (⟦<Bench as Shown>⟧.on bench.old)
        table.old.rows world →
        Tries files.now result (closed_at world file) (⟦<Bench as Shown>⟧.on bench.new)
        table.new.rows }
    ensures breaks { (world : World) → IsOver files.now (⟦<Bench as Shown>⟧.on bench.old)
        table.old.rows world →
        Stays result files.now world bench.new.left
        (⟦<Bench as Shown>⟧.all bench.new) table.new.rows }
{
    if !has_row(table, files, file) {
        return Ok(42);
    }
    file_model::operations::close(bench, table, files, file)
}

/// READ of a file into `into`: its status, or why it broke off.
pub fn read(
    bench: &mut Bench,
    table: &mut FileTable,
    files: &[FileEntry],
    file: u32,
    into: &mut [u8],
) -> Result<u8, FileFault>
    ensures bench { DoneOver result files.now bench.old.left bench.new.left
        (⟦<Bench as Shown>⟧.all bench.old) (⟦<Bench as Shown>⟧.all bench.new) table.new.rows }
    ensures does { (world : World) → IsOver files.now (⟦<Bench as Shown>⟧.on bench.old)
        table.old.rows world →
        Tries files.now result
        (read_at world file (address_by (slice_get files.now file)) (length into.old))
        (⟦<Bench as Shown>⟧.on bench.new) table.new.rows }
    ensures record { (world : World) → IsOver files.now (⟦<Bench as Shown>⟧.on bench.old)
        table.old.rows world → result ≡ Ok 0 →
        into.new ≡ (read_at world file (address_by (slice_get files.now file))
        (length into.old)).bytes }
    ensures breaks { (world : World) → IsOver files.now (⟦<Bench as Shown>⟧.on bench.old)
        table.old.rows world →
        Stays result files.now world bench.new.left
        (⟦<Bench as Shown>⟧.all bench.new) table.new.rows }
{
    if !has_row(table, files, file) {
        return Ok(47);
    }
    file_model::operations::read(bench, table, files, file, into)
}

/// WRITE of a record: its status, or why it broke off.
pub fn write(
    bench: &mut Bench,
    table: &mut FileTable,
    files: &[FileEntry],
    file: u32,
    bytes: &[u8],
) -> Result<u8, FileFault>
    ensures bench { DoneOver result files.now bench.old.left bench.new.left
        (⟦<Bench as Shown>⟧.all bench.old) (⟦<Bench as Shown>⟧.all bench.new) table.new.rows }
    ensures does { (world : World) → IsOver files.now (⟦<Bench as Shown>⟧.on bench.old)
        table.old.rows world →
        Tries files.now result
        (written_at world file (address_by (slice_get files.now file)) bytes.now)
        (⟦<Bench as Shown>⟧.on bench.new) table.new.rows }
    ensures breaks { (world : World) → IsOver files.now (⟦<Bench as Shown>⟧.on bench.old)
        table.old.rows world →
        Stays result files.now world bench.new.left
        (⟦<Bench as Shown>⟧.all bench.new) table.new.rows }
{
    if !has_row(table, files, file) {
        return Ok(48);
    }
    file_model::operations::write(bench, table, files, file, bytes)
}

/// REWRITE of a record: its status, or why it broke off.
pub fn rewrite(
    bench: &mut Bench,
    table: &mut FileTable,
    files: &[FileEntry],
    file: u32,
    bytes: &[u8],
) -> Result<u8, FileFault>
    ensures bench { DoneOver result files.now bench.old.left bench.new.left
        (⟦<Bench as Shown>⟧.all bench.old) (⟦<Bench as Shown>⟧.all bench.new) table.new.rows }
    ensures does { (world : World) → IsOver files.now (⟦<Bench as Shown>⟧.on bench.old)
        table.old.rows world →
        Tries files.now result
        (rewritten_at world file (address_by (slice_get files.now file)) bytes.now)
        (⟦<Bench as Shown>⟧.on bench.new) table.new.rows }
    ensures breaks { (world : World) → IsOver files.now (⟦<Bench as Shown>⟧.on bench.old)
        table.old.rows world →
        Stays result files.now world bench.new.left
        (⟦<Bench as Shown>⟧.all bench.new) table.new.rows }
{
    if !has_row(table, files, file) {
        return Ok(49);
    }
    file_model::operations::rewrite(bench, table, files, file, bytes)
}

/// Closes the files that are open, on the devices that are left, and says whether one failed.
pub fn close_left(bench: &mut Bench, table: &mut FileTable, files: &[FileEntry]) -> bool
    requires within { bench.old.left ≤ vec_len bench.old.devices }
    ensures closes { length files.now < 2 ^ 32 →
        (gone : List (List ℕ)) (left : ℕ) (old : List Seen) →
        AreShut gone (addresses_of files.now) table.old.rows →
        LeftOf (is_used (addresses_of files.now)) gone left bench.old.left old
        (⟦<Bench as Shown>⟧.all bench.old) →
        Closes result (addresses_of files.now) gone left bench.old.left bench.new.left old
        (⟦<Bench as Shown>⟧.all bench.old) (⟦<Bench as Shown>⟧.all bench.new) table.old.rows }
{
    has_rows(table, files) && file_model::operations::close_open(bench, table, files)
}
