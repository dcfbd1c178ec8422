//! What lowering knows of a program.

ghost use Rattle.std.specs.Prelude.{◌≡◌, false, slice_get};
ghost use Rattle.program_facts.specs.completion.FlowFacts.{is_among, returns_by, status_missing};

use cob_base::Items;
use cob_tree::FileEntry;

/// Whether the number is one of these.
fn is_among(number: u32, numbers: &[u32]) -> bool
    ensures { result ≡ is_among number numbers.now }
{
    for other in numbers {
        if *other == number {
            return true;
        }
    }
    false
}

/// Whether the range returns: `returning` has, for each entry, the exits of those that do.
pub fn returns(returning: &[Items<u32>], entry: u32, exit: u32) -> bool
    ensures { result ≡ returns_by returning.now entry exit }
{
    match returning.get(entry as usize) {
        None => false,
        Some(exits) => is_among(exit, exits.as_slice()),
    }
}

/// Whether the file has no status item, so that without AT END its end ends the run.
pub fn ends_at_end(files: &[FileEntry], file: u32) -> bool
    ensures { result ≡ status_missing (slice_get files.now file) }
{
    match files.get(file as usize) {
        None => false,
        Some(file) => file.status.is_none(),
    }
}
