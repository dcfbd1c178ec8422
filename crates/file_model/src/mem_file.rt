//! Files in memory.

use cob_base::Text;
use cob_tree::How;

/// A file in memory.
#[derive(Debug, Drop)]
pub struct MemFile {
    pub name: Text,
    pub bytes: Text,
    /// How it is open.
    pub how: Option<How>,
    /// The byte at which the next read begins.
    pub at: usize,
    /// Where the record that was read last begins; none where none was read.
    pub last: Option<usize>,
}
