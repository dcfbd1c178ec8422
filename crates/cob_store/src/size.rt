//! How long items are.

ghost use Rattle.std.specs.Prelude.{◌≡◌};
ghost use Rattle.cob_base.specs.Answers.{Makes};
ghost use Rattle.cob_store.specs.Size.{added, behind, inside, is_apart, is_bare, is_condition, number_size, picture_size, sign_size, size_by, sized, sized_either, times};
ghost use Rattle.cob_store.specs.sizes.Size as judged;

use crate::number::digit_count;
use crate::stack::Stack;
use cob_base::{Items, NoMemory};
use cob_tree::{Entry, Picture, Sign, Usage};
use std::alloc::Global;
use stored_forms::{binary_size, packed_size};

/// An item with all its occurrences, in a row of items. One that redefines adds nothing to the
/// size.
#[derive(Clone, Copy, Debug)]
pub struct SizedItem {
    pub depth: u8,
    pub bytes: u32,
}

fn sign_size(sign: Sign) -> u32
    ensures { result ≡ sign_size sign }
{
    match sign {
        Sign::Within => 0,
        Sign::SeparateLeading => 1,
        Sign::SeparateTrailing => 1,
    }
}

fn number_size(usage: Usage, sign: Sign, whole: u8, part: u8) -> u32
    ensures { result ≡ number_size usage sign whole part }
{
    match usage {
        Usage::Display => u32::from(whole) + u32::from(part) + sign_size(sign),
        Usage::Binary => binary_size(digit_count(whole, part)),
        Usage::Packed => packed_size(digit_count(whole, part)),
    }
}

fn picture_size(picture: &Picture, sign: Sign, usage: Usage) -> u32
    ensures { result ≡ picture_size picture.now sign usage }
{
    match picture {
        Picture::Number { whole, part, .. } => number_size(usage, sign, *whole, *part),
        Picture::Letters(size) => *size,
        Picture::Any(size) => *size,
        Picture::Edited(mask) => mask.size(),
    }
}

/// Whether an entry is a condition name, of level 88.
pub fn is_condition(entry: &Entry) -> bool
    ensures { result ≡ is_condition entry.now }
{
    entry.level == 88
}

fn is_bare(faulty: bool, entry: &Entry) -> bool
    ensures { result ≡ is_bare faulty entry.now }
{
    if faulty {
        is_condition(entry) || entry.level == 0
    } else {
        is_condition(entry)
    }
}

/// Whether an entry is of level 77, which is in no group and holds none.
pub fn is_apart(entry: &Entry) -> bool
    ensures { result ≡ is_apart entry.now }
{
    entry.level == 77
}

/// A size, multiplied by the OCCURS clause; at most the largest `u32`.
pub fn times(occurs: Option<u32>, size: u32) -> u32
    ensures { result ≡ times occurs size }
{
    match occurs {
        None => size,
        Some(count) => size.saturating_mul(count),
    }
}

fn added(redefines: Option<u32>, bytes: u32) -> u32
    ensures { result ≡ added redefines bytes }
{
    match redefines {
        None => bytes,
        Some(_) => 0,
    }
}

fn size_by(picture: &Option<Picture>, sign: Sign, usage: Usage, bytes: u32) -> u32
    ensures { result ≡ size_by picture.now sign usage bytes }
{
    match picture {
        None => bytes,
        Some(picture) => picture_size(picture, sign, usage),
    }
}

// Takes off the items within an item, and answers their bytes.
fn take_inside(pieces: &mut Stack<SizedItem>, depth: u8) -> u32
    ensures bytes { result ≡ inside depth 0 pieces.old }
    ensures left { pieces.new ≡ behind depth pieces.old }
{
    let mut bytes = 0u32;
    while let Some(piece) = pieces.top() {
        if piece.depth <= depth {
            return bytes;
        }
        bytes = bytes.saturating_add(piece.bytes);
        pieces.pop();
    }
    bytes
}

// The sizes of all entries, the first in front.
fn sizes_back(alloc: Global, entries: &[Entry], faulty: bool) -> Result<Stack<u32>, NoMemory>
    ensures { Makes (sized_either faulty entries.now).sizes result }
{
    let mut sizes = Stack::new(alloc);
    let mut pieces = Stack::new(alloc);
    let mut at = entries.len();
    while at > 0 {
        at -= 1;
        let entry = &entries[at];
        if is_bare(faulty, entry) {
            sizes.push(0)?;
        } else if is_apart(entry) {
            sizes.push(size_by(&entry.picture, entry.sign, entry.usage, 0))?;
        } else {
            let bytes = take_inside(&mut pieces, entry.level);
            let size = size_by(&entry.picture, entry.sign, entry.usage, bytes);
            sizes.push(size)?;
            pieces.push(SizedItem {
                depth: entry.level,
                bytes: added(entry.redefines, times(entry.occurs, size)),
            })?;
        }
    }
    Ok(sizes)
}

/// The bytes of one occurrence of each entry, the first in front; a size is at most the largest
/// `u32`.
pub fn stacked_sizes(alloc: Global, entries: &[Entry]) -> Result<Stack<u32>, NoMemory>
    ensures { Makes (sized entries.now).sizes result }
{
    sizes_back(alloc, entries, false)
}

// The elements of a stack, the top first.
fn in_order(alloc: Global, mut stack: Stack<u32>) -> Result<Items<u32>, NoMemory>
    ensures { Makes stack result }
{
    let mut sizes = Items::new(alloc);
    while let Some(size) = stack.pop() {
        sizes.push(size)?;
    }
    Ok(sizes)
}

/// The bytes of one occurrence of each entry, where entries may have faults: one with an invalid
/// level takes no bytes.
pub fn sizes_of(alloc: Global, entries: &[Entry]) -> Result<Items<u32>, NoMemory>
    ensures { Makes (judged.sized entries.now).sizes result }
{
    let sizes = sizes_back(alloc, entries, true)?;
    in_order(alloc, sizes)
}
