//! Declared names, and what a reference stands for.

use cob_base::{Items, Word};

/// What an item holds, as far as its uses need it.
#[derive(Clone, Copy, Debug, PartialEq, Eq)]
pub enum ItemKind {
    /// A number; whether it is without decimals.
    Number { whole: bool },
    /// An elementary item of characters.
    Text,
    /// An item that shows a number through a mask.
    Edited,
    /// An item with items below it.
    Group,
    /// The name of a level 88.
    Condition,
}

/// An entry as references see it.
#[derive(Debug, Drop)]
pub struct Name {
    /// None for FILLER.
    pub word: Option<Word>,
    /// What may qualify it: the names of the groups above it, the nearest first, and its file's.
    /// For a level 88 the first is its item's.
    pub above: Items<Word>,
    pub kind: ItemKind,
    /// How many subscripts it takes.
    pub dims: usize,
}

/// What a reference stands for.
#[derive(Clone, Copy, Debug, PartialEq, Eq)]
pub enum Referent {
    /// Nothing that is declared.
    Unknown,
    /// More than one item.
    Ambiguous,
    /// The entry of this number, from 0.
    Item {
        item: u32,
        kind: ItemKind,
        dims: usize,
    },
}
