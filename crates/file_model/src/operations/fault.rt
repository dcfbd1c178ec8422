//! Why an operation on a file gave no status.

use cob_base::NoMemory;

/// Why an operation on a file gave no status; what was done so far stays.
#[derive(Clone, Copy, Debug, PartialEq, Eq)]
pub enum FileFault {
    /// The device failed: it is the first one after those on the bench, and its files are closed in
    /// the table.
    Device,
    /// The device, or the caller, ran out of memory.
    NoMemory,
}

impl From<NoMemory> for FileFault {
    ghost use Rattle.std.specs.Prelude.{◌≡◌};
    ghost use Rattle.file_model.specs.declared.operations.fault.FileFault.TheVariants as faults;

    ghost from_gives = { λ _ e. e ≡ faults.NoMemory };

    fn from(_: NoMemory) -> FileFault {
        FileFault::NoMemory
    }
}
