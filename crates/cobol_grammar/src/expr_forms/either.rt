//! What may turn out to be subscripts or a sum.

use crate::expr_forms::chain::Chain;
use cob_base::Items;
use cob_tree::{Place, Sub};
use parser_combinators::Note;

/// A sum that may turn out to be subscripts, as far as it is read.
#[derive(Debug, Drop)]
pub struct MaybeSubscripts {
    /// The subscripts that the tokens spell.
    pub subs: Items<Sub>,
    /// The item of one more subscript, to which a number may be added.
    pub base: Option<Place>,
    /// The sum that they spell.
    pub chain: Chain,
    /// How many leaves it has, which aren't counted yet.
    pub leaves: u32,
    /// The fault that they have as subscripts.
    pub fault: Option<Note>,
}
