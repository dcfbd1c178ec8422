//! How many bytes a program's items take.

ghost use Rattle.std.specs.Prelude.{◌≡◌, ◌-◌, ◌^◌, min, sum, slice_get, OnOk};
ghost use Rattle.std.specs.Option.{unwrap_or};
ghost use Rattle.cob_base.specs.Answers.{Makes};
ghost use Rattle.cob_store.specs.sizes.Storage as storages;

use crate::size::sizes_of;
use cob_base::{Items, NoMemory};
use cob_tree::Entry;
use std::alloc::Global;

/// The roots so far: the number of each entry's root, where the entry is in no group; the bytes of
/// each root; and the file of the last item that is in no group.
#[derive(Debug, Drop)]
pub struct Roots {
    pub of: Items<usize>,
    pub sizes: Items<u32>,
    pub file: Option<u32>,
}

fn is_root(entry: &Entry) -> bool
    ensures { result ≡ storages.is_root entry.now }
{
    entry.level == 1 || entry.level == 77
}

fn same_area(file: Option<u32>, other: Option<u32>) -> bool
    ensures { result ≡ storages.same_area file other }
{
    match file {
        None => false,
        Some(file) => match other {
            None => false,
            Some(other) => file == other,
        },
    }
}

fn number_at(numbers: &[usize], at: usize) -> usize
    ensures { result ≡ unwrap_or (slice_get numbers.now at) 0 }
{
    match numbers.get(at) {
        None => 0,
        Some(number) => *number,
    }
}

fn size_at(sizes: &[u32], at: usize) -> u32
    ensures { result ≡ unwrap_or (slice_get sizes.now at) 0 }
{
    match sizes.get(at) {
        None => 0,
        Some(size) => *size,
    }
}

fn root_by(roots: &Roots, file: Option<u32>, redefines: Option<u32>) -> usize
    ensures { result ≡ storages.root_by roots.now file redefines }
{
    match redefines {
        Some(redefined) => number_at(roots.of.as_slice(), redefined as usize),
        None => {
            if same_area(file, roots.file) {
                roots.sizes.len().saturating_sub(1)
            } else {
                roots.sizes.len()
            }
        }
    }
}

fn lengthen(sizes: &mut Items<u32>, root: usize, size: u32) -> Result<(), NoMemory>
    ensures { OnOk result (sizes.new ≡ storages.lengthened sizes.old root size) }
{
    if root < sizes.len() {
        let longest = sizes.as_slice()[root].max(size);
        sizes.put(root, longest);
        Ok(())
    } else {
        sizes.push(size)
    }
}

fn add_root(roots: &mut Roots, entry: &Entry, size: u32) -> Result<(), NoMemory>
    ensures { OnOk result (roots.new ≡ storages.rooted roots.old entry.now size) }
{
    if !is_root(entry) {
        return roots.of.push(0);
    }
    let root = root_by(roots, entry.file, entry.redefines);
    roots.of.push(root)?;
    lengthen(&mut roots.sizes, root, size)?;
    roots.file = entry.file;
    Ok(())
}

fn add_next(roots: &mut Roots, entry: &Entry, sizes: &[u32]) -> Result<(), NoMemory>
    ensures { OnOk result (roots.new ≡ storages.rooted_next sizes.now roots.old entry.now) }
{
    let size = size_at(sizes, roots.of.len());
    add_root(roots, entry, size)
}

fn roots_of(alloc: Global, sizes: &[u32], entries: &[Entry]) -> Result<Roots, NoMemory>
    ensures { Makes (storages.roots_of sizes.now entries.now) result }
{
    let mut roots = Roots {
        of: Items::new(alloc),
        sizes: Items::new(alloc),
        file: None,
    };
    for entry in entries {
        add_next(&mut roots, entry, sizes)?;
    }
    Ok(roots)
}

fn total(sizes: &[u32]) -> u64
    ensures { result ≡ min (sum sizes.now) (2 ^ 64 - 1) }
{
    let mut total = 0u64;
    for size in sizes {
        total = total.saturating_add(u64::from(*size));
    }
    total
}

/// The bytes of all items of level 01 and 77, a file's records counted once; at most the largest
/// `u64`.
pub fn storage_of(alloc: Global, entries: &[Entry]) -> Result<u64, NoMemory>
    ensures { Makes (storages.storage_of entries.now) result }
{
    let sizes = sizes_of(alloc, entries)?;
    let roots = roots_of(alloc, sizes.as_slice(), entries)?;
    Ok(total(roots.sizes.as_slice()))
}
