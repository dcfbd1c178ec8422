//! Graphs while the rules rewrite them.

ghost use Rattle.std.specs.Prelude.{◌≡◌};
ghost use Rattle.control_flow_theory.specs.graph_rules.Reduced.{all_leaves_to};
ghost use Rattle.graph_rewriting.specs.Helds.{seen_work};
ghost use Rattle.graph_rewriting.specs.Rewriting.{IsSound, NodeAt};

use crate::kept::Kept;
use branch_tree::{Added, Label, Node};
use slab::Slab;
use std::collections::BTreeMap;
use std::marker::Model;

/// A graph while the rules rewrite it: nodes in a slab, and their keys by their labels. Contracts
/// see the graph.
#[derive(Drop)]
pub struct Work {
    pub slots: Slab<Kept>,
    pub keys: BTreeMap<Label, usize>,
    pub entry: Label,
    pub added: Vec<Added>,
}

impl Model for Work {
    ghost use Rattle.std.specs.Coded.{codes};
    ghost use Rattle.graph_rewriting.specs.Helds.{Held};
    ghost use Rattle.branch_tree.specs.contracts.graph.Node as node;
    ghost use Rattle.branch_tree.specs.contracts.graph.Added as kind;

    ghost Value = { Held };

    ghost coded = { Prim.hlevel (codes, node.the_row.coded, kind.the_row.coded) };

    ghost use Rattle.graph_rewriting.specs.Work.{held_of, IsWhole};

    ghost view = { held_of };

    ghost invariant = { IsWhole };
}

impl Work {
    /// States, without any effect, what holds of each graph that is rewritten.
    pub fn sound(&self)
        ensures { IsSound (seen_work self.now) }
    {
        let _ = &self.entry;
    }

    /// How many leaves of the graph jump to the label.
    pub fn incoming(&self, label: Label) -> u32
        ensures { result ≡ all_leaves_to label (seen_work self.now).nodes }
    {
        match self.keys.get(&label) {
            None => 0,
            Some(key) => match self.slots.get(*key) {
                None => 0,
                Some(kept) => kept.incoming,
            },
        }
    }

    /// The node at the label.
    pub fn node(&self, label: Label) -> Option<&Node>
        ensures { NodeAt result (seen_work self.now).nodes label }
    {
        match self.keys.get(&label) {
            None => None,
            Some(key) => match self.slots.get(*key) {
                None => None,
                Some(kept) => Some(&kept.node),
            },
        }
    }
}
