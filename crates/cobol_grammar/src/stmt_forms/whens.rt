//! The arms of EVALUATE as they are read.

use cob_base::Items;
use cob_tree::When;

/// The arms of EVALUATE so far.
#[derive(Debug, Drop)]
pub struct Whens {
    pub whens: Items<When>,
    /// Whether WHEN OTHER was read, so that its statements are next.
    pub other: bool,
    /// Whether a NOT was read after them that isn't theirs.
    pub pending_not: bool,
}
