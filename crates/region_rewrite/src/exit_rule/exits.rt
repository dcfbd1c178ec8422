//! Exits on a node.

ghost use Rattle.std.specs.Prelude.{◌≡◌, ◌<◌, ◌≤◌, ◌+◌, ◌++◌, ◌^◌, true, map, length, OnOk, OnErr};
ghost use Rattle.std.specs.Vec.{vec_len, vec_capacity};
ghost use Rattle.control_flow_theory.specs.graph_rules.Reduced.{has_node};
ghost use Rattle.control_flow_theory.specs.structuring.Closes.{exits_graph, are_several, none_left_out};
ghost use Rattle.control_flow_theory.specs.structuring.Dispatches.{bare};
ghost use Rattle.control_flow_theory.specs.structuring.Targets.{with_exits};
ghost use Rattle.branch_tree.specs.Graph.{seen_nodes};
ghost use Rattle.graph_rewriting.specs.Helds.{seen_work};
ghost use Rattle.branch_tree.specs.Tree.{seen_tree, seen_trees};
ghost use Rattle.tree_rules.specs.Targets.{seen_targets};
ghost use Rattle.region_rewrite.specs.exit_rule.Exits.{CloseExits, leaves_by_exits, may_exit, return_trees};

use crate::exit_rule::targets::targets_of;
use branch_tree::{Added, End, Label, Leaves, Picker, Piece, Test, Tree, drop_pieces};
use cob_base::{Items, NoMemory};
use graph_rewriting::Work;
use loop_rules::{Turning, looped};
use state_dispatch::tree_returns;
use std::alloc::Global;
use std::collections::VecDeque;
use tree_rules::{Targets, other_targets};

/// Adds a bare return after the other trees, where there is to be one; there is room for it.
fn push_return(alloc: Global, trees: &mut Vec<Tree>, returns: bool)
    requires { vec_len trees.old < vec_capacity trees.old }
    ensures { map seen_tree trees.new.items ≡ map seen_tree trees.old.items
        ++ return_trees returns }
{
    if returns {
        trees.push_reserved(Tree {
            body: VecDeque::new(alloc),
            end: End::Return,
        });
    }
}

/// The bare targets in order, a return last; there is room for them.
fn bare(alloc: Global, targets: &[Label], returns: bool, room: Vec<Tree>) -> Items<Tree>
    requires none { vec_len room ≡ 0 }
    requires enough { length targets.now + 1 ≤ vec_capacity room }
    ensures { seen_trees result ≡ bare targets.now returns }
{
    let mut trees = room;
    for target in targets {
        trees.push_reserved(Tree {
            body: VecDeque::new(alloc),
            end: End::Jump(*target),
        });
    }
    push_return(alloc, &mut trees, returns);
    Items::from_vec(trees)
}

/// The tree of a node as a loop with its exits. Without memory the tree stays.
pub fn exit_tree(alloc: Global, tree: &mut Tree, label: Label, cell: u32) -> Result<(), NoMemory>
    ensures ok { OnOk result (seen_tree tree.new
        ≡ with_exits none_left_out cell label (seen_tree tree.old)) }
    ensures err { OnErr result (seen_tree tree.new ≡ seen_tree tree.old) }
{
    let targets = targets_of(alloc, tree, label)?;
    let mut before = Vec::with_capacity(alloc, 2)?;
    let room = match Vec::with_capacity(alloc, targets.len() + 1) {
        Ok(room) => room,
        Err(_) => {
            drop_pieces(before);
            return Err(NoMemory);
        }
    };
    before.push_reserved(Piece::Set { cell, value: 0 });
    let arms = bare(alloc, targets.as_slice(), tree_returns(tree), room);
    let turning = Turning {
        after: false,
        turned: false,
        test: Test::Above { cell },
        leaves: Leaves::Exit {
            cell,
            label,
            targets,
        },
    };
    let by = Picker::ByCell { cell };
    looped(tree, before, turning, End::Pick { by, arms });
    Ok(())
}

fn are_several(targets: &Targets) -> bool
    ensures { result ≡ are_several (seen_targets targets.now) }
{
    match targets {
        Targets::NoTarget => false,
        Targets::ToLabel(_) => false,
        Targets::Back => false,
        Targets::Several => true,
    }
}

/// Whether Exits applies on a node with this label and this tree.
fn leaves_by_exits(tree: &Tree, label: Label) -> bool
    ensures { result ≡ leaves_by_exits label (seen_tree tree.now) }
{
    if tree.jumps_to(label) {
        are_several(&other_targets(tree, label))
    } else {
        false
    }
}

/// Whether Exits applies on the label.
pub fn may_exit(work: &Work, label: Label) -> bool
    ensures { result ≡ may_exit (seen_work work.now) label }
{
    match work.node(label) {
        None => false,
        Some(node) => leaves_by_exits(&node.tree, label),
    }
}

/// Makes a loop with exits of the node with the label. Without memory the graph stays.
fn exit_node(alloc: Global, work: &mut Work, label: Label) -> Result<(), NoMemory>
    requires has { has_node (seen_nodes work.old.nodes) label ≡ true }
    requires room { vec_len work.old.added < 2 ^ 32 }
    ensures ok { OnOk result (seen_work work.new ≡ exits_graph label (seen_work work.old)) }
    ensures err { OnErr result (seen_work work.new ≡ seen_work work.old) }
{
    let cell = work.added_len() as u32;
    work.reserve_added()?;
    work.sound();
    match work.take(alloc, label) {
        None => unreachable!(),
        Some(tree) => {
            let mut tree = tree;
            let closed = exit_tree(alloc, &mut tree, label, cell);
            work.put(label, tree);
            match closed {
                Ok(()) => {
                    work.push_added(Added::Exit);
                    Ok(())
                }
                Err(fault) => Err(fault),
            }
        }
    }
}

/// Exits on the node with the label: true where the rule applied, false where it doesn't. With
/// false, and without memory, the graph stays.
pub fn close_exits(alloc: Global, work: &mut Work, label: Label) -> Result<bool, NoMemory>
    requires room { vec_len work.old.added < 2 ^ 32 }
    ensures { CloseExits result label (seen_work work.old) (seen_work work.new) }
{
    if may_exit(work, label) {
        match exit_node(alloc, work, label) {
            Ok(()) => Ok(true),
            Err(fault) => Err(fault),
        }
    } else {
        Ok(false)
    }
}
