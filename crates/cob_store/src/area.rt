//! Where items are in storage.

ghost use Rattle.std.specs.Prelude.{◌≡◌, ◌^◌, ◌-◌, min, sum, option_copied, slice_get};
ghost use Rattle.cob_store.specs.Area.{mask_at, root_of, size_of, start_of};

use crate::constant_place::Dims;
use cob_base::{Boxed, Items};
use cob_tree::Sign;
use edit_fields::Mask;

/// The repetitions of an OCCURS clause.
#[derive(Clone, Copy, Debug, PartialEq, Eq)]
pub struct Dim {
    /// How many bytes after an occurrence the next one begins.
    pub stride: u32,
    /// How many occurrences there are.
    pub count: u32,
}

/// How a number is stored.
#[derive(Clone, Copy, Debug, PartialEq, Eq)]
pub enum Storage {
    /// A character for each digit, with the sign there.
    Digits(Sign),
    /// In two's complement, so many digits at most.
    Binary(u8),
    /// A half byte for each of so many digits.
    Packed(u8),
}

/// How the bytes of a place are read and written.
#[derive(Clone, Copy, Debug, PartialEq, Eq)]
pub enum Form {
    /// An item that holds items.
    Group,
    /// A number with so many digits before the decimal point and after it.
    Number {
        signed: bool,
        whole: u8,
        part: u8,
        storage: Storage,
    },
    /// A number as it is shown through the mask of its item: text, but where it receives one.
    Edited,
    /// Any other item, and each place with a window.
    Text,
}

/// Where an item is, and the form of its bytes. A level 88 is where its item is.
#[derive(Debug, Drop)]
pub struct Area {
    /// The root that it is in.
    pub root: u32,
    /// Where its first occurrence begins.
    pub start: u32,
    /// The bytes of one occurrence.
    pub size: u32,
    pub form: Form,
    /// The mask of an item that is edited.
    pub mask: Option<Boxed<Mask>>,
    /// The OCCURS clauses that apply to it, the outermost first.
    pub dims: Dims,
}

/// Where each entry of a program is, and how long each root is.
#[derive(Debug, Drop)]
pub struct Areas {
    /// An area for each entry.
    pub items: Items<Area>,
    /// The bytes of each root.
    pub roots: Items<u32>,
}

impl Areas {
    /// The root that an item is in; 0 where there is no such item.
    pub fn root(&self, item: u32) -> u32
        ensures { result ≡ root_of (slice_get self.now.items item) }
    {
        match area_at(self.items.as_slice(), item) {
            None => 0,
            Some(area) => area.root,
        }
    }

    /// The byte of its root at which an item's first occurrence begins, from 0; 0 where there is no
    /// such item.
    pub fn start(&self, item: u32) -> u32
        ensures { result ≡ start_of (slice_get self.now.items item) }
    {
        match area_at(self.items.as_slice(), item) {
            None => 0,
            Some(area) => area.start,
        }
    }

    /// How many bytes one occurrence of an item has; 0 where there is no such item.
    pub fn size(&self, item: u32) -> u32
        ensures { result ≡ size_of (slice_get self.now.items item) }
    {
        match area_at(self.items.as_slice(), item) {
            None => 0,
            Some(area) => area.size,
        }
    }

    /// The bytes of all roots together, at most the largest `u64`.
    pub fn total(&self) -> u64
        ensures { result ≡ min (sum self.now.roots) (2 ^ 64 - 1) }
    {
        let mut total = 0u64;
        for size in self.roots.as_slice() {
            total = total.saturating_add(u64::from(*size));
        }
        total
    }
}

/// The area of an item; none where there is no such item.
pub fn area_at(areas: &[Area], item: u32) -> Option<&Area>
    ensures { option_copied result ≡ slice_get areas.now item }
{
    areas.get(item as usize)
}

/// The mask of an item that is edited.
pub fn mask_at(areas: &[Area], item: u32) -> Option<&Mask>
    ensures { option_copied result ≡ mask_at areas.now item }
{
    match area_at(areas, item) {
        None => None,
        Some(area) => match &area.mask {
            None => None,
            Some(mask) => Some(mask.get()),
        },
    }
}
