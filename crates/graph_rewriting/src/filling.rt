//! Puts the nodes of a graph into slots, and takes them back.

ghost use Rattle.std.specs.Prelude.{◌≡◌, [], OnOk, IfOk};
ghost use Rattle.std.specs.Bool.{OnTrue};
ghost use Rattle.std.specs.Ordering.{nat_cmp};
ghost use Rattle.std.specs.BTreeMap.{IsOrdered};
ghost use Rattle.control_flow_theory.specs.structuring.Dispatches.{Rising};
ghost use Rattle.branch_tree.specs.Tree.{seen_tree};
ghost use Rattle.branch_tree.specs.Graph.{seen_nodes};
ghost use Rattle.graph_rewriting.specs.Work.{nodes_by};
ghost use Rattle.graph_rewriting.specs.Filling.{AddsBare, Emptied, FillsAt, Filled, NoneFull, Leads};

use crate::counting::count_tree;
use crate::drops::{drop_failed, drop_slots};
use crate::kept::Kept;
use crate::slots::{bare_tree, put_in};
use branch_tree::{Label, Node, Tree, drop_tree};
use cob_base::NoMemory;
use slab::Slab;
use std::alloc::Global;
use std::collections::BTreeMap;

/// Adds a slot, with a bare tree at the label.
fn add_bare(
    alloc: Global,
    keys: &mut BTreeMap<Label, usize>,
    slots: &mut Slab<Kept>,
    label: Label,
) -> Result<(), NoMemory>
    ensures { OnOk result (AddsBare label keys.old slots.old keys.new slots.new) }
{
    let kept = Kept {
        node: Node {
            label,
            tree: bare_tree(alloc),
        },
        incoming: 0,
        sources: 0,
    };
    match slots.insert(kept) {
        Err(failed) => {
            drop_failed(failed);
            Err(NoMemory)
        }
        Ok(key) => match keys.insert(label, key) {
            Ok(_) => Ok(()),
            Err(_) => Err(NoMemory),
        },
    }
}

/// A slot for each node, with a bare tree.
pub fn empty_slots(
    alloc: Global,
    nodes: &[Node],
    keys: &mut BTreeMap<Label, usize>,
    slots: &mut Slab<Kept>,
) -> Result<(), NoMemory>
    requires rising { Rising (seen_nodes nodes.now) }
    requires empty { keys.old.entries ≡ [] }
    requires ordered { IsOrdered nat_cmp keys.old }
    ensures { OnOk result (Emptied (seen_nodes nodes.now) keys.new slots.new) }
{
    for node in nodes {
        add_bare(alloc, keys, slots, node.label)?;
    }
    Ok(())
}

/// Puts the tree into the slot of its label, and counts its leaves.
fn fill_at(keys: &BTreeMap<Label, usize>, slots: &mut Slab<Kept>, label: Label, tree: Tree)
    ensures { FillsAt label (seen_tree tree) keys.now slots.old slots.new }
{
    match keys.get(&label) {
        None => drop_tree(tree),
        Some(key) => {
            let key = *key;
            count_tree(keys, slots, &tree, key, true);
            put_in(slots, key, tree);
        }
    }
}

/// Puts the trees of the nodes into their slots, and counts their leaves.
pub fn fill(keys: &BTreeMap<Label, usize>, slots: &mut Slab<Kept>, nodes: Vec<Node>)
    requires { Emptied (seen_nodes nodes.items) keys.now slots.old }
    ensures { Filled (seen_nodes nodes.items) keys.now slots.new }
{
    let mut nodes = nodes;
    while let Some(node) = nodes.pop() {
        let Node { label, tree } = node;
        fill_at(keys, slots, label, tree);
    }
}

/// Whether no count is the largest `u32`, above which nothing can be counted.
pub fn none_full(keys: &BTreeMap<Label, usize>, slots: &Slab<Kept>) -> bool
    ensures { OnTrue result (NoneFull slots.now keys.now.entries) }
{
    for (_, key) in keys.iter() {
        match slots.get(*key) {
            None => {}
            Some(kept) => {
                if kept.incoming >= u32::MAX {
                    return false;
                }
            }
        }
    }
    true
}

/// The nodes in the slots of these keys.
pub fn nodes_out(
    alloc: Global,
    keys: BTreeMap<Label, usize>,
    slots: Slab<Kept>,
) -> Result<Vec<Node>, NoMemory>
    requires ordered { IsOrdered nat_cmp keys }
    requires leads { Leads keys slots }
    ensures { IfOk result (λ nodes. seen_nodes nodes.items ≡ seen_nodes (nodes_by slots
        keys.entries)) }
{
    let mut keys = keys;
    let mut slots = slots;
    match Vec::with_capacity(alloc, keys.len()) {
        Err(_) => {
            drop_slots(slots);
            Err(NoMemory)
        }
        Ok(nodes) => {
            let mut nodes = nodes;
            while let Some((_, key)) = keys.pop_first() {
                match slots.try_remove(key) {
                    None => {}
                    Some(kept) => nodes.push_reserved(node_of(kept)),
                }
            }
            drop_slots(slots);
            Ok(nodes)
        }
    }
}

fn node_of(kept: Kept) -> Node
    ensures { result ≡ kept.node }
{
    let Kept {
        node,
        incoming: _,
        sources: _,
    } = kept;
    node
}
