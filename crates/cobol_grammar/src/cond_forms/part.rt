//! Conditions as far as they are read.

use crate::cond_forms::test::Setting;
use cob_tree::Cond;

/// A condition without AND and OR, and what abbreviations after it stand for.
#[derive(Debug, Drop)]
pub struct SimpleCond {
    pub cond: Cond,
    pub setting: Option<Setting>,
    /// How many terms there are up to here.
    pub count: u32,
    /// Whether a NOT was read after it that isn't its own.
    pub pending_not: bool,
}

/// A condition as far as it is read; what AND joins goes to the last part.
#[derive(Debug, Drop)]
pub struct Joined {
    pub before: Option<Cond>,
    pub part: SimpleCond,
}
