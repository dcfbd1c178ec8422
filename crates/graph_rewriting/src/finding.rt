//! Finds nodes with a leaf that jumps to a label.

ghost use Rattle.std.specs.Prelude.{◌≡◌, length, IfOk, IfSome};
ghost use Rattle.std.specs.Map.{keys_of};
ghost use Rattle.control_flow_theory.specs.graph_rules.Reduced.{size};
ghost use Rattle.control_flow_theory.specs.structuring.Dispatches.{labels_of};
ghost use Rattle.branch_tree.specs.Graph.{seen_nodes};
ghost use Rattle.graph_rewriting.specs.Rewriting.{Source};
ghost use Rattle.graph_rewriting.specs.Work.{JumpsFrom, AnySource};

use crate::kept::Kept;
use crate::work::Work;
use branch_tree::Label;
use cob_base::NoMemory;
use slab::Slab;
use std::alloc::Global;
use std::collections::BTreeMap;

/// The label of the node in the slot, if a leaf of it jumps to the label.
fn source_at(
    keys: &BTreeMap<Label, usize>,
    slots: &Slab<Kept>,
    label: Label,
    key: usize,
) -> Option<Label>
    ensures { IfSome result (JumpsFrom label keys.now slots.now) }
{
    match slots.get(key) {
        None => None,
        Some(kept) => {
            let from = kept.node.label;
            if !kept.node.tree.jumps_to(label) {
                return None;
            }
            match keys.get(&from) {
                None => None,
                Some(found) => { if *found == key { Some(from) } else { None } }
            }
        }
    }
}

/// The label of the node whose leaf jumps to the label, where there is only one such leaf.
fn likely_source(keys: &BTreeMap<Label, usize>, slots: &Slab<Kept>, label: Label) -> Option<Label>
    ensures { IfSome result (JumpsFrom label keys.now slots.now) }
{
    match keys.get(&label) {
        None => None,
        Some(key) => match slots.get(*key) {
            None => None,
            Some(kept) => source_at(keys, slots, label, kept.sources),
        },
    }
}

/// The first label of a node that has such a leaf.
fn any_source(keys: &BTreeMap<Label, usize>, slots: &Slab<Kept>, label: Label) -> Option<Label>
    ensures { AnySource result label keys.now slots.now }
{
    for (from, key) in keys.iter() {
        match slots.get(*key) {
            None => {}
            Some(kept) => {
                if kept.node.tree.jumps_to(label) {
                    return Some(*from);
                }
            }
        }
    }
    None
}

fn listed(alloc: Global, keys: &BTreeMap<Label, usize>) -> Result<Vec<Label>, NoMemory>
    ensures { IfOk result (λ labels. labels.items ≡ keys_of keys.now.entries) }
{
    let mut labels = Vec::with_capacity(alloc, keys.len())?;
    for label in keys.keys() {
        labels.push(*label)?;
    }
    Ok(labels)
}

impl Work {
    /// The label of a node with a leaf that jumps to the label.
    pub fn source(&self, label: Label) -> Option<Label>
        ensures { Source result (seen_nodes self.now.nodes) label }
    {
        match likely_source(&self.keys, &self.slots, label) {
            Some(from) => Some(from),
            None => any_source(&self.keys, &self.slots, label),
        }
    }

    /// The labels of the nodes, in their order.
    pub fn labels(&self, alloc: Global) -> Result<Vec<Label>, NoMemory>
        ensures { IfOk result (λ labels. labels.items ≡ labels_of (seen_nodes self.now.nodes)) }
    {
        listed(alloc, &self.keys)
    }

    /// How many nodes there are.
    pub fn len(&self) -> usize
        ensures { result ≡ size (seen_nodes self.now.nodes) }
    {
        self.keys.len()
    }
}
