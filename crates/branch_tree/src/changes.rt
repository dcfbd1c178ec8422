//! Changes of trees that drop something, and functions that drop parts of graphs.

ghost use Rattle.std.specs.Prelude.{◌≡◌, ◌+◌, ◌≤◌, ◌++◌, IfNone, IfSome};
ghost use Rattle.std.specs.VecDeque.{deque_len, deque_capacity};
ghost use Rattle.branch_tree.specs.Changes.{GoesOn};
ghost use Rattle.branch_tree.specs.Tree.{seen_tree};

use crate::graph::Node;
use crate::tree::{End, Piece, Tree};
use cob_base::Items;
use std::collections::VecDeque;
use std::mem;

/// Moves the pieces of the first body before the other's.
fn move_before(first: &mut VecDeque<Piece>, body: &mut VecDeque<Piece>)
    requires { deque_len first.old + deque_len body.old ≤ deque_capacity body.old }
    ensures { body.new.items ≡ first.old.items ++ body.old.items }
{
    while let Some(piece) = first.pop_back() {
        body.push_front_reserved(piece);
    }
}

/// Joins the other body to the end of the first: the shorter one moves. Without memory the other
/// one is given back, and the first one stays.
fn join_bodies(first: &mut VecDeque<Piece>, other: VecDeque<Piece>) -> Option<VecDeque<Piece>>
    ensures joined { IfNone result (first.new.items ≡ first.old.items ++ other.items) }
    ensures stays { IfSome result (λ back. first.new.items ≡ first.old.items) }
    ensures back { IfSome result (λ back. back.items ≡ other.items) }
{
    let mut other = other;
    if first.len() >= other.len() {
        return match first.append(&mut other) {
            Ok(()) => {
                drop_body(other);
                None
            }
            Err(_) => Some(other),
        };
    }
    match other.reserve(first.len()) {
        Ok(()) => {
            move_before(first, &mut other);
            drop_body(mem::replace(first, other));
            None
        }
        Err(_) => Some(other),
    }
}

impl Tree {
    /// Gives the tree another end.
    pub fn end_by(&mut self, end: End)
        ensures body { self.new.body ≡ self.old.body }
        ensures end { self.new.end ≡ end }
    {
        self.end = end;
    }

    /// Replaces this tree's end by the other tree: the shorter body moves. Without memory the other
    /// one is given back, and this one stays.
    pub fn append_tree(&mut self, by: Tree) -> Option<Tree>
        ensures { GoesOn result (seen_tree by) (seen_tree self.old) (seen_tree self.new) }
    {
        let (body, end) = by.into_parts();
        match join_bodies(&mut self.body, body) {
            None => {
                self.end_by(end);
                None
            }
            Some(body) => Some(Tree { body, end }),
        }
    }
}

/// Drops trees.
pub fn drop_trees(_trees: Items<Tree>) {}

/// Drops pieces.
pub fn drop_pieces(_pieces: Vec<Piece>) {}

/// Drops a body.
pub fn drop_body(_body: VecDeque<Piece>) {}

/// Drops a tree.
pub fn drop_tree(_tree: Tree) {}

/// Drops nodes.
pub fn drop_nodes(_nodes: Vec<Node>) {}
