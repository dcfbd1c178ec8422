//! Devices with files, which the caller provides.

ghost use Rattle.std.specs.Prelude.{◌≡◌, ◌≢◌, length};

use cob_tree::How;

/// What OPEN comes to.
#[derive(Clone, Copy, Debug, PartialEq, Eq)]
pub enum Opened {
    Ready,
    Missing,
    Failed,
    NoMemory,
}

/// What a read gives.
#[derive(Clone, Copy, Debug, PartialEq, Eq)]
pub enum Got {
    /// So many bytes were put at the front of the buffer.
    Bytes(usize),
    End,
    Failed,
}

/// Whether a change was done.
#[derive(Clone, Copy, Debug, PartialEq, Eq)]
pub enum Put {
    Done,
    Failed,
    NoMemory,
}

/// Files by their names. Contracts see what they hold, where that is known, and how often the
/// device failed.
pub trait Device: Drop {
    ghost use Rattle.std.specs.Prelude.{List, ℕ, Option, ◌≡◌, ◌≢◌, length};
    ghost use Rattle.file_model.specs.declared.mem_file.MemFile.{MemFile};
    ghost use Rattle.file_model.specs.Told.{Changes, Counts, GivesAtMost, Opens, Reads, StaysUngiven, appended, open_fails, put_fails, read_fails, replaced, shut};

    ghost named: { Self → List ℕ };

    ghost told: { Self → Option (List MemFile) };

    ghost faults: { Self → ℕ };

    /// The name of the device.
    fn name(&self) -> &[u8]
        ensures { result.now ≡ named self.now };

    /// Opens a file of the device.
    fn open_file(&mut self, file: &[u8], how: How) -> Opened
        ensures name { named self.new ≡ named self.old }
        ensures told { Opens (told self.old) file.now how result (told self.new) }
        ensures cause { Counts (open_fails result) (faults self.old) (faults self.new) };

    /// Puts what comes next of a file at the front of `into`, which stays as it was where nothing
    /// comes. For an `into` that isn't empty the end comes exactly where nothing is left.
    fn read_next(&mut self, file: &[u8], into: &mut [u8]) -> Got
        ensures name { named self.new ≡ named self.old }
        ensures bound { GivesAtMost (length into.old) result }
        ensures ungiven { StaysUngiven result into.old into.new }
        ensures told { Reads (told self.old) file.now result into.old into.new (told self.new) }
        ensures cause { Counts (read_fails result) (faults self.old) (faults self.new) };

    /// Puts bytes at a file's end.
    fn write_next(&mut self, file: &[u8], bytes: &[u8]) -> Put
        ensures name { named self.new ≡ named self.old }
        ensures told { Changes (told self.old) file.now (appended bytes.now) result
            (told self.new) }
        ensures cause { Counts (put_fails result) (faults self.old) (faults self.new) };

    /// Replaces the record that was read last by a whole record.
    fn rewrite_last(&mut self, file: &[u8], bytes: &[u8]) -> Put
        ensures name { named self.new ≡ named self.old }
        ensures told { Changes (told self.old) file.now (replaced bytes.now) result
            (told self.new) }
        ensures cause { Counts (put_fails result) (faults self.old) (faults self.new) };

    /// Closes a file, without allocating.
    fn close_file(&mut self, file: &[u8]) -> Put
        ensures name { named self.new ≡ named self.old }
        ensures told { Changes (told self.old) file.now shut result (told self.new) }
        ensures cause { Counts (put_fails result) (faults self.old) (faults self.new) }
        ensures memory { result ≢ Put.NoMemory };

    /// How often it failed so far; it stays at the largest number.
    fn faults(&self) -> u64
        ensures { result ≡ faults self.now };
}
