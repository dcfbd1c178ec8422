//! What comes first in the parentheses after a reference.

use crate::expr_forms::chain::Chain;
use crate::expr_forms::either::MaybeSubscripts;

/// What comes first in the parentheses after a reference.
#[derive(Debug, Drop)]
pub enum FirstInParens {
    Either(MaybeSubscripts),
    /// A sum that isn't subscripts, and the terms that were counted up to there.
    Sum(Chain, u32),
}
