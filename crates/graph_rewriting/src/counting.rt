//! The counts of the leaves that jump to nodes, as trees come and go.

ghost use Rattle.std.specs.Prelude.{◌≡◌};
ghost use Rattle.control_flow_theory.specs.graph_rules.Shapes.{leaves_to, arms_leaves_to};
ghost use Rattle.branch_tree.specs.Tree.{seen_tree, seen_trees};
ghost use Rattle.graph_rewriting.specs.Counting.{turned, once_at, Counts};

use crate::kept::Kept;
use branch_tree::{End, Label, Tree};
use slab::Slab;
use std::collections::BTreeMap;

/// Counts a leaf more or less that jumps to the node; the leaf is of the node with the holder's
/// key.
fn turn(kept: &mut Kept, holder: usize, comes: bool)
    ensures node { kept.new.node ≡ kept.old.node }
    ensures count { kept.new.incoming ≡ turned comes 1 kept.old.incoming }
{
    if comes {
        kept.incoming = kept.incoming.saturating_add(1);
        kept.sources = kept.sources.wrapping_add(holder);
    } else {
        kept.incoming = kept.incoming.saturating_sub(1);
        kept.sources = kept.sources.wrapping_sub(holder);
    }
}

/// Counts a leaf more or less that jumps to the label. A label without a node is skipped.
fn count_leaf(
    keys: &BTreeMap<Label, usize>,
    slots: &mut Slab<Kept>,
    label: Label,
    holder: usize,
    comes: bool,
)
    ensures { Counts comes (once_at label) keys.now slots.old slots.new }
{
    match keys.get(&label) {
        None => {}
        Some(key) => match slots.get_mut(*key) {
            None => {}
            Some(kept) => turn(kept, holder, comes),
        },
    }
}

/// Counts the leaves of a tree, of the node with the holder's key, more or less.
#[cycle(counts)]
pub fn count_tree(
    keys: &BTreeMap<Label, usize>,
    slots: &mut Slab<Kept>,
    tree: &Tree,
    holder: usize,
    comes: bool,
)
    ensures { Counts comes (λ l. leaves_to l (seen_tree tree.now)) keys.now slots.old slots.new }
{
    match &tree.end {
        End::Pick { arms, .. } => count_arms(keys, slots, arms.as_slice(), holder, comes),
        End::Jump(to) => count_leaf(keys, slots, *to, holder, comes),
        End::Return => {}
        End::Stop => {}
        End::Dead => {}
    }
}

#[cycle(counts)]
fn count_arms(
    keys: &BTreeMap<Label, usize>,
    slots: &mut Slab<Kept>,
    arms: &[Tree],
    holder: usize,
    comes: bool,
)
    ensures { Counts comes (λ l. arms_leaves_to l (seen_trees arms.now)) keys.now slots.old
        slots.new }
{
    for arm in arms {
        count_tree(keys, slots, arm, holder, comes);
    }
}
