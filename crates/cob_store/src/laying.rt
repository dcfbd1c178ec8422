//! Where the items of a program are in storage.

ghost use Rattle.std.specs.Prelude.{◌≡◌, Ok, ◌++◌, ◌<◌, [], ◌^◌, OnOk, length, option_copied};
ghost use Rattle.cob_base.specs.Answers.{Makes};
ghost use Rattle.cob_store.specs.Laying.{alone_laid, apart_laid, below_laid, condition_laid, dims_of, form_by, groups_of, item_laid, laid_by, last_area, layout_of, lengthened, mask_by, next_by, root_by, same_file, start_by};

use crate::area::{Area, Areas, Dim, Form, area_at};
use crate::constant_place::Dims;
use crate::size::{is_apart, is_condition, stacked_sizes, times};
use crate::stack::Stack;
use crate::store::form_with;
use cob_base::{Boxed, Items, NoMemory};
use cob_tree::{Entry, Picture, Sign, Usage};
use edit_fields::Mask;
use std::alloc::Global;

/// A group that is open, and where its next item begins.
#[derive(Debug, Drop)]
pub struct Open {
    pub depth: u8,
    pub root: u32,
    pub next: u32,
    pub dims: Items<Dim>,
}

/// What is laid out so far: the areas, how long each root is, the groups that are open, the
/// innermost first, and the file of the last entry.
#[derive(Debug, Drop)]
pub struct Laid {
    pub areas: Items<Area>,
    pub roots: Items<u32>,
    pub groups: Stack<Open>,
    pub file: Option<u32>,
}

// Closes the groups that an item of this depth isn't in.
fn close_groups(groups: &mut Stack<Open>, depth: u8)
    ensures { groups.new ≡ groups_of depth groups.old }
{
    while let Some(group) = groups.top() {
        if group.depth < depth {
            return;
        }
        groups.pop();
    }
}

fn form_by(sign: Sign, usage: Usage, picture: &Option<Picture>) -> Form
    ensures { result ≡ form_by sign usage picture.now }
{
    match picture {
        None => Form::Group,
        Some(picture) => form_with(picture, sign, usage),
    }
}

fn mask_by(alloc: Global, picture: &Option<Picture>) -> Result<Option<Boxed<Mask>>, NoMemory>
    ensures { Makes (mask_by picture.now) result }
{
    match picture {
        Some(Picture::Edited(mask)) => Ok(Some(Boxed::new(alloc, *mask)?)),
        _ => Ok(None),
    }
}

// These dimensions, and after them that of the entry.
fn dims_with(
    alloc: Global,
    dims: &[Dim],
    occurs: Option<u32>,
    size: u32,
) -> Result<Items<Dim>, NoMemory>
    ensures { Makes (dims.now ++ dims_of occurs size) result }
{
    let mut all = Items::from_slice(alloc, dims)?;
    if let Some(count) = occurs {
        all.push(Dim {
            stride: size,
            count,
        })?;
    }
    Ok(all)
}

fn next_by(next: u32, bytes: u32, redefines: Option<u32>) -> u32
    ensures { result ≡ next_by next bytes redefines }
{
    match redefines {
        None => next.saturating_add(bytes),
        Some(_) => next,
    }
}

fn same_file(file: Option<u32>, last: Option<u32>) -> bool
    ensures { result ≡ same_file file last }
{
    match (file, last) {
        (Some(file), Some(last)) => file == last,
        _ => false,
    }
}

fn last_area(areas: &[Area]) -> Option<&Area>
    ensures { option_copied result ≡ last_area areas.now }
{
    areas.get(areas.len().saturating_sub(1))
}

fn start_by(laid: &Laid, next: u32, redefines: Option<u32>) -> u32
    ensures { result ≡ start_by laid.now next redefines }
{
    match redefines {
        None => next,
        Some(redefined) => match area_at(laid.areas.as_slice(), redefined) {
            None => 0,
            Some(area) => area.start,
        },
    }
}

fn root_by(laid: &Laid, redefines: Option<u32>, file: Option<u32>) -> u32
    requires { length laid.now.roots < 2 ^ 32 }
    ensures { result ≡ root_by laid.now redefines file }
{
    match redefines {
        Some(redefined) => match area_at(laid.areas.as_slice(), redefined) {
            None => 0,
            Some(area) => area.root,
        },
        None => {
            if !same_file(file, laid.file) {
                return laid.roots.len() as u32;
            }
            match last_area(laid.areas.as_slice()) {
                None => 0,
                Some(area) => area.root,
            }
        }
    }
}

fn lengthen(roots: &mut Items<u32>, root: u32, size: u32) -> Result<(), NoMemory>
    ensures { OnOk result (roots.new ≡ lengthened roots.old root size) }
{
    let at = root as usize;
    if at < roots.len() {
        let longest = roots.as_slice()[at].max(size);
        roots.put(at, longest);
        Ok(())
    } else {
        roots.push(size)
    }
}

fn lay_root(alloc: Global, laid: &mut Laid, entry: &Entry, size: u32) -> Result<(), NoMemory>
    requires { length laid.old.roots < 2 ^ 32 }
    ensures { OnOk result (laid.new ≡ alone_laid laid.old entry.now size) }
{
    let root = root_by(laid, entry.redefines, entry.file);
    let dims = dims_with(alloc, &[], entry.occurs, size)?;
    let inner = dims_with(alloc, &[], entry.occurs, size)?;
    laid.areas.push(Area {
        root,
        start: 0,
        size,
        form: form_by(entry.sign, entry.usage, &entry.picture),
        mask: mask_by(alloc, &entry.picture)?,
        dims: Dims::new(alloc, dims),
    })?;
    lengthen(&mut laid.roots, root, size)?;
    laid.groups.push(Open {
        depth: entry.level,
        root,
        next: 0,
        dims: inner,
    })?;
    laid.file = entry.file;
    Ok(())
}

fn lay_inner(
    alloc: Global,
    laid: &mut Laid,
    entry: &Entry,
    size: u32,
    group: Open,
) -> Result<(), NoMemory>
    ensures { OnOk result (laid.new ≡ below_laid laid.old entry.now size group laid.old.groups) }
{
    let start = start_by(laid, group.next, entry.redefines);
    let next = next_by(group.next, times(entry.occurs, size), entry.redefines);
    let dims = dims_with(alloc, group.dims.as_slice(), entry.occurs, size)?;
    let inner = dims_with(alloc, group.dims.as_slice(), entry.occurs, size)?;
    let root = group.root;
    laid.areas.push(Area {
        root,
        start,
        size,
        form: form_by(entry.sign, entry.usage, &entry.picture),
        mask: mask_by(alloc, &entry.picture)?,
        dims: Dims::new(alloc, dims),
    })?;
    laid.groups.push(Open { next, ..group })?;
    laid.groups.push(Open {
        depth: entry.level,
        root,
        next: start,
        dims: inner,
    })?;
    laid.file = entry.file;
    Ok(())
}

fn lay_item(alloc: Global, laid: &mut Laid, entry: &Entry, size: u32) -> Result<(), NoMemory>
    requires { length laid.old.roots < 2 ^ 32 }
    ensures { OnOk result (laid.new
        ≡ item_laid laid.old entry.now size (groups_of entry.now.level laid.old.groups)) }
{
    close_groups(&mut laid.groups, entry.level);
    match laid.groups.pop() {
        None => lay_root(alloc, laid, entry, size),
        Some(group) => lay_inner(alloc, laid, entry, size, group),
    }
}

// Lays out an entry that neither opens a group nor closes one.
fn lay_apart(alloc: Global, laid: &mut Laid, entry: &Entry, size: u32) -> Result<(), NoMemory>
    requires { length laid.old.roots < 2 ^ 32 }
    ensures { OnOk result (laid.new ≡ apart_laid laid.old entry.now size) }
{
    lay_root(alloc, laid, entry, size)?;
    laid.groups.pop();
    Ok(())
}

// Lays out a level 88, which is where the item before it is.
fn lay_condition(alloc: Global, laid: &mut Laid) -> Result<(), NoMemory>
    ensures { OnOk result (laid.new ≡ condition_laid laid.old (last_area laid.old.areas)) }
{
    let Some(area) = last_area(laid.areas.as_slice()) else {
        return Ok(());
    };
    let area = copy_area(alloc, area)?;
    laid.areas.push(area)
}

fn copy_mask(alloc: Global, mask: &Option<Boxed<Mask>>) -> Result<Option<Boxed<Mask>>, NoMemory>
    ensures { Makes mask.now result }
{
    match mask {
        None => Ok(None),
        Some(mask) => Ok(Some(Boxed::new(alloc, *mask.get())?)),
    }
}

fn copy_area(alloc: Global, area: &Area) -> Result<Area, NoMemory>
    ensures { Makes area.now result }
{
    Ok(Area {
        root: area.root,
        start: area.start,
        size: area.size,
        form: area.form,
        mask: copy_mask(alloc, &area.mask)?,
        dims: Dims::new(alloc, Items::from_slice(alloc, area.dims.as_slice())?),
    })
}

fn lay(alloc: Global, laid: &mut Laid, entry: &Entry, size: u32) -> Result<(), NoMemory>
    requires { length laid.old.roots < 2 ^ 32 }
    ensures { OnOk result (laid.new ≡ laid_by laid.old entry.now size) }
{
    if is_condition(entry) {
        lay_condition(alloc, laid)
    } else if is_apart(entry) {
        lay_apart(alloc, laid, entry, size)
    } else {
        lay_item(alloc, laid, entry, size)
    }
}

/// Where each item is, and how long each root is. Entries with faults aren't refused.
pub fn layout(alloc: Global, entries: &[Entry]) -> Result<Areas, NoMemory>
    requires { length entries.now < 2 ^ 31 }
    ensures { Makes (layout_of entries.now) result }
{
    let mut sizes = stacked_sizes(alloc, entries)?;
    let mut laid = Laid {
        areas: Items::new(alloc),
        roots: Items::new(alloc),
        groups: Stack::new(alloc),
        file: None,
    };
    for entry in entries {
        let Some(size) = sizes.pop() else {
            break;
        };
        lay(alloc, &mut laid, entry, size)?;
    }
    Ok(Areas {
        items: laid.areas,
        roots: laid.roots,
    })
}
