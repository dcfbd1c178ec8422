//! What comes after the words of a reference.

use cob_base::{Boxed, Items};
use cob_tree::{Sub, Window};

/// What is in the parentheses after a reference.
#[derive(Debug, Drop)]
pub enum Suffix {
    Subs(Items<Sub>),
    Window(Boxed<Window>),
}

/// The subscripts and the window after a reference, and how many terms there are up to there.
#[derive(Debug, Drop)]
pub struct RefSuffixes {
    pub subs: Items<Sub>,
    pub window: Option<Boxed<Window>>,
    pub count: u32,
}
