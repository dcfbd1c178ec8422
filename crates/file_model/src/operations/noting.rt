//! An operation that gave no record.

ghost use Rattle.std.specs.Prelude.{◌≡◌, ◌<◌, IfSome, Ok, length, slice_get, slice_set};
ghost use Rattle.file_model.specs.Status.{other_row};

use crate::FileTable;
use crate::operations::fault::FileFault;

// Notes an operation that gave no record, and has this status.
pub fn noted(table: &mut FileTable, file: u32, status: u8) -> Result<u8, FileFault>
    requires { file < length table.old.rows }
    ensures rows { length table.new.rows ≡ length table.old.rows }
    ensures answer { result ≡ Ok status }
    ensures table { IfSome (slice_get table.old.rows file)
        (λ row. table.new.rows ≡ slice_set table.old.rows file (other_row row)) }
{
    table.note_other(file);
    Ok(status)
}
