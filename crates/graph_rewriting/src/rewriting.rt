//! Changes of a graph while it is rewritten.

ghost use Rattle.std.specs.Prelude.{◌≡◌, ◌≢◌, ◌<◌, ◌++◌, ◌∷◌, [], true, OnOk};
ghost use Rattle.std.specs.Vec.{vec_len, vec_capacity};
ghost use Rattle.control_flow_theory.specs.graph_rules.Reduced.{has_node, tree_in, without, with_tree, all_leaves_to};
ghost use Rattle.branch_tree.specs.Tree.{seen_tree};
ghost use Rattle.branch_tree.specs.Graph.{seen_nodes};
ghost use Rattle.graph_rewriting.specs.Helds.{seen_work};
ghost use Rattle.graph_rewriting.specs.Rewriting.{bare, Fits, WithNodes, Takes};

use crate::counting::count_tree;
use crate::drops::drop_kept;
use crate::slots::{put_in, take_out};
use crate::work::Work;
use branch_tree::{Added, Label, Tree, drop_tree};
use cob_base::NoMemory;
use std::alloc::Global;

impl Work {
    /// Takes out the tree at the label, and leaves a bare one there.
    pub fn take(&mut self, alloc: Global, label: Label) -> Option<Tree>
        ensures { Takes result label self.old self.new }
    {
        match self.keys.get(&label) {
            None => None,
            Some(key) => {
                let key = *key;
                match take_out(alloc, &mut self.slots, key) {
                    None => None,
                    Some(tree) => {
                        count_tree(&self.keys, &mut self.slots, &tree, key, false);
                        Some(tree)
                    }
                }
            }
        }
    }

    /// Puts the tree at the label, which has a bare one.
    pub fn put(&mut self, label: Label, tree: Tree)
        requires has { has_node (seen_nodes self.old.nodes) label ≡ true }
        requires bare { tree_in (seen_nodes self.old.nodes) label ≡ bare }
        requires fits { Fits (seen_tree tree) (seen_nodes self.old.nodes) }
        ensures { WithNodes (with_tree label (seen_tree tree) (seen_nodes self.old.nodes)) self.old
            self.new }
    {
        match self.keys.get(&label) {
            None => drop_tree(tree),
            Some(key) => {
                let key = *key;
                count_tree(&self.keys, &mut self.slots, &tree, key, true);
                put_in(&mut self.slots, key, tree);
            }
        }
    }

    /// Removes the node at the label, whose tree is bare, and to which no leaf jumps.
    pub fn remove(&mut self, label: Label)
        requires entry { label ≢ self.old.entry }
        requires has { has_node (seen_nodes self.old.nodes) label ≡ true }
        requires bare { tree_in (seen_nodes self.old.nodes) label ≡ bare }
        requires unused { all_leaves_to label (seen_nodes self.old.nodes) ≡ 0 }
        ensures { WithNodes (without label (seen_nodes self.old.nodes)) self.old self.new }
    {
        match self.keys.remove(&label) {
            None => {}
            Some(key) => match self.slots.try_remove(key) {
                None => {}
                Some(kept) => drop_kept(kept),
            },
        }
    }

    /// Makes room for an added item.
    pub fn reserve_added(&mut self) -> Result<(), NoMemory>
        ensures graph { seen_work self.new ≡ seen_work self.old }
        ensures room { OnOk result (vec_len self.new.added < vec_capacity self.new.added) }
    {
        match self.added.reserve(1) {
            Ok(()) => Ok(()),
            Err(_) => Err(NoMemory),
        }
    }

    /// Adds an added item, for which there is room.
    pub fn push_added(&mut self, kind: Added)
        requires room { vec_len self.old.added < vec_capacity self.old.added }
        ensures entry { self.new.entry ≡ self.old.entry }
        ensures nodes { self.new.nodes ≡ self.old.nodes }
        ensures added { self.new.added.items ≡ self.old.added.items ++ kind ∷ [] }
    {
        self.added.push_reserved(kind);
    }

    /// The label of the node that is entered first.
    pub fn entry(&self) -> Label
        ensures { result ≡ self.now.entry }
    {
        self.entry
    }

    /// How many added items there are.
    pub fn added_len(&self) -> usize
        ensures { result ≡ vec_len self.now.added }
    {
        self.added.len()
    }
}
