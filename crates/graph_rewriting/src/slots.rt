//! Puts trees into slots and takes them out.

ghost use Rattle.std.specs.Prelude.{◌≡◌};
ghost use Rattle.branch_tree.specs.Tree.{seen_tree};
ghost use Rattle.graph_rewriting.specs.Rewriting.{bare};
ghost use Rattle.graph_rewriting.specs.Counting.{PutsIn, TakesOut};

use crate::kept::Kept;
use branch_tree::{End, Tree, drop_tree};
use slab::Slab;
use std::alloc::Global;
use std::collections::VecDeque;
use std::mem;

/// A tree without a piece and with a dead end.
pub fn bare_tree(alloc: Global) -> Tree
    ensures { seen_tree result ≡ bare }
{
    Tree {
        body: VecDeque::new(alloc),
        end: End::Dead,
    }
}

/// Takes out the tree in the slot, and leaves a bare one there.
pub fn take_out(alloc: Global, slots: &mut Slab<Kept>, key: usize) -> Option<Tree>
    ensures { TakesOut result key slots.old slots.new }
{
    match slots.get_mut(key) {
        None => None,
        Some(kept) => Some(mem::replace(&mut kept.node.tree, bare_tree(alloc))),
    }
}

/// Puts the tree into the slot, and drops the one that was there.
pub fn put_in(slots: &mut Slab<Kept>, key: usize, tree: Tree)
    ensures { PutsIn tree key slots.old slots.new }
{
    match slots.get_mut(key) {
        None => drop_tree(tree),
        Some(kept) => drop_tree(mem::replace(&mut kept.node.tree, tree)),
    }
}
