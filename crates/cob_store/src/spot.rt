//! Parts of a store.

use crate::area::Form;

/// Consecutive bytes of a root.
#[derive(Clone, Copy, Debug, PartialEq, Eq)]
pub struct Spot {
    pub root: u32,
    pub start: u32,
    pub length: u32,
}

/// Where a place is, and the form of its bytes.
#[derive(Clone, Copy, Debug, PartialEq, Eq)]
pub struct Reached {
    pub spot: Spot,
    pub form: Form,
}
