//! Where a file is: a device, and its name there.

ghost use Rattle.std.specs.Prelude.{◌≡◌, ◌≤◌, ◌<◌, Some, slice_get, ◌&&◌, ◌||◌, ◌==◌, is_some, length, nat_le, not, take};
ghost use Rattle.std.specs.List.{list_all};
ghost use Rattle.file_model.specs.Attempts.{address_of, before_colon, can_be_opened, name_byte, same_address};
ghost use Rattle.file_model.specs.operations.Calls.{addresses_of};
ghost use Rattle.file_model.specs.operations.Standing.{is_open_there};

use crate::FileRow;
use cob_tree::FileEntry;

const COLON: u8 = b':';

// How many bytes come before the first colon.
fn colon_at(assign: &[u8]) -> usize
    ensures count { result ≡ length (before_colon assign.now) }
    ensures within { result ≤ length assign.now }
    ensures front { take result assign.now ≡ before_colon assign.now }
{
    for at in 0..assign.len() {
        if assign[at] == COLON {
            return at;
        }
    }
    assign.len()
}

/// The name of the device on which a file is.
pub fn device_of(assign: &[u8]) -> &[u8]
    ensures { result.now ≡ (address_of assign.now).device }
{
    let colon = colon_at(assign);
    if colon == assign.len() {
        b"DISK"
    } else {
        &assign[..colon]
    }
}

/// The name of a file on its device.
pub fn name_of(assign: &[u8]) -> &[u8]
    ensures { result.now ≡ (address_of assign.now).name }
{
    let colon = colon_at(assign);
    if colon == assign.len() {
        assign
    } else {
        &assign[colon + 1..]
    }
}

fn is_name_byte(byte: u8) -> bool
    ensures { result ≡ name_byte byte }
{
    (byte >= b'0' && byte <= b'9')
        || (byte >= b'A' && byte <= b'Z')
        || (byte >= b'a' && byte <= b'z')
        || byte == b'.'
        || byte == b'-'
        || byte == b'_'
}

fn begins_name(first: u8) -> bool
    ensures { result ≡ (not (first == 46) && name_byte first) }
{
    first != b'.' && is_name_byte(first)
}

fn are_name_bytes(bytes: &[u8]) -> bool
    ensures { result ≡ list_all name_byte bytes.now }
{
    bytes.iter().all(|byte| is_name_byte(*byte))
}

fn is_short(behind_first: usize) -> bool
    ensures { result ≡ nat_le behind_first 59 }
{
    behind_first <= 59
}

fn all_three(one: bool, two: bool, three: bool) -> bool
    ensures { result ≡ (one && two && three) }
{
    one && two && three
}

// Whether a file of that name can be opened.
fn can_be_opened(name: &[u8]) -> bool
    ensures { result ≡ can_be_opened name.now }
{
    if name.len() == 0 {
        return false;
    }
    let begins = begins_name(name[0]);
    let named = are_name_bytes(&name[1..]);
    let short = is_short(name.len() - 1);
    all_three(begins, named, short)
}

// Whether two files of a program are at the same place.
fn same_place(assign: &[u8], other: &[u8]) -> bool
    ensures { result ≡ same_address (address_of assign.now) (address_of other.now) }
{
    device_of(assign) == device_of(other) && name_of(assign) == name_of(other)
}

fn row_at(rows: &[FileRow], file: usize) -> FileRow
    requires { file < length rows.now }
    ensures { slice_get rows.now file ≡ Some result }
{
    rows[file]
}

// Whether that file of the program is open at that place.
fn is_there(assign: &[u8], entry: &FileEntry, row: &FileRow) -> bool
    ensures { result ≡ (is_some row.now.how
        && same_address (address_of assign.now) (address_of entry.now.assign)) }
{
    row.how.is_some() && same_place(assign, entry.assign.as_slice())
}

// Whether a file of the program is open at that place.
fn is_taken(files: &[FileEntry], rows: &[FileRow], assign: &[u8]) -> bool
    requires { length files.now ≤ length rows.now }
    ensures { result ≡ is_open_there (address_of assign.now) (addresses_of files.now) rows.now }
{
    for file in 0..files.len() {
        let row = row_at(rows, file);
        if is_there(assign, &files[file], &row) {
            return true;
        }
    }
    false
}

/// Whether OPEN is refused before a device is called: the name can't be opened, or another file of
/// the program is open there.
pub fn is_refused(files: &[FileEntry], rows: &[FileRow], assign: &[u8]) -> bool
    requires { length files.now ≤ length rows.now }
    ensures { result ≡ (not (can_be_opened (address_of assign.now).name)
        || is_open_there (address_of assign.now) (addresses_of files.now) rows.now) }
{
    !can_be_opened(name_of(assign)) || is_taken(files, rows, assign)
}
