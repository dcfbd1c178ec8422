//! Loop on a node.

ghost use Rattle.std.specs.Prelude.{◌≡◌, ◌<◌, ◌^◌, true, OnOk, OnErr};
ghost use Rattle.std.specs.Vec.{vec_len};
ghost use Rattle.control_flow_theory.specs.semantics.Graph as graph;
ghost use Rattle.control_flow_theory.specs.graph_rules.Loops.{Flagged, Endless, loop_of};
ghost use Rattle.control_flow_theory.specs.graph_rules.Reduced.{close_graph, at_most_one};
ghost use Rattle.control_flow_theory.specs.graph_rules.Shapes.{flat};
ghost use Rattle.graph_rewriting.specs.Helds.{seen_work};
ghost use Rattle.branch_tree.specs.Tree.{seen_tree};
ghost use Rattle.tree_rules.specs.Targets.{seen_targets};
ghost use Rattle.loop_rules.specs.Nodes.{Closes, CloseLoop, closed, closed_live, may_loop, turns};
ghost use Rattle.loop_rules.specs.Forms.{end_by};

use crate::forms::{LoopForm, Turning, close_after, close_before, end_of, form_of, looped};
use branch_tree::{Added, Label, Leaves, Piece, Test, Tree};
use cob_base::NoMemory;
use graph_rewriting::Work;
use std::alloc::Global;
use tree_rules::{Targets, other_targets};

/// Makes the loop without an end. Without memory the tree stays.
fn close_endless(alloc: Global, tree: &mut Tree, label: Label, cell: u32) -> Result<(), NoMemory>
    ensures ok { OnOk result (seen_tree tree.new
        ≡ graph.tree (loop_of Endless cell (flat Endless cell label (seen_tree tree.old)))
        graph.Dead) }
    ensures err { OnErr result (seen_tree tree.new ≡ seen_tree tree.old) }
{
    let room = Vec::with_capacity(alloc, 1)?;
    let turning = Turning {
        after: false,
        turned: false,
        test: Test::Is { cell, value: 1 },
        leaves: Leaves::Silent,
    };
    looped(tree, room, turning, end_of(&Targets::NoTarget));
    Ok(())
}

/// Makes the loop with a flag, which is cleared before it. Without memory the tree stays.
fn close_flag(
    alloc: Global,
    tree: &mut Tree,
    label: Label,
    cell: u32,
    live: &Targets,
) -> Result<(), NoMemory>
    ensures ok { OnOk result (seen_tree tree.new
        ≡ graph.tree (loop_of Flagged cell (flat Flagged cell label (seen_tree tree.old)))
        (end_by (seen_targets live.now))) }
    ensures err { OnErr result (seen_tree tree.new ≡ seen_tree tree.old) }
{
    let mut room = Vec::with_capacity(alloc, 2)?;
    room.push_reserved(Piece::Set { cell, value: 0 });
    let turning = Turning {
        after: false,
        turned: false,
        test: Test::Is { cell, value: 1 },
        leaves: Leaves::Flag { cell, label },
    };
    looped(tree, room, turning, end_of(live));
    Ok(())
}

/// Makes the loop with its one target, and with its added item where it has one. Without memory the
/// tree stays.
fn close_live(
    alloc: Global,
    tree: &mut Tree,
    label: Label,
    cell: u32,
    live: &Targets,
) -> Result<Option<Added>, NoMemory>
    ensures { Closes result (closed_live label cell (seen_tree tree.old) (seen_targets live.now))
        (seen_tree tree.old) (seen_tree tree.new) }
{
    match form_of(tree, label, live) {
        LoopForm::Before { turned } => {
            close_before(tree, turned, label, live)?;
            Ok(None)
        }
        LoopForm::After { turned } => {
            close_after(alloc, tree, turned, label, live)?;
            Ok(None)
        }
        LoopForm::Flag => {
            close_flag(alloc, tree, label, cell, live)?;
            Ok(Some(Added::Flag))
        }
    }
}

/// Makes the tree of a node a loop, with its added item where it has one. Without memory the tree
/// stays.
pub fn close_tree(
    alloc: Global,
    tree: &mut Tree,
    label: Label,
    cell: u32,
) -> Result<Option<Added>, NoMemory>
    ensures { Closes result (closed label cell (seen_tree tree.old)) (seen_tree tree.old)
        (seen_tree tree.new) }
{
    let live = other_targets(tree, label);
    match live {
        Targets::NoTarget => {
            close_endless(alloc, tree, label, cell)?;
            Ok(Some(Added::Never))
        }
        Targets::ToLabel(_) => close_live(alloc, tree, label, cell, &live),
        Targets::Back => close_live(alloc, tree, label, cell, &live),
        Targets::Several => Ok(None),
    }
}

fn at_most_one(targets: &Targets) -> bool
    ensures { result ≡ at_most_one (seen_targets targets.now) }
{
    match targets {
        Targets::NoTarget => true,
        Targets::ToLabel(_) => true,
        Targets::Back => true,
        Targets::Several => false,
    }
}

/// Whether Loop applies on a node with this label and this tree.
fn turns(tree: &Tree, label: Label) -> bool
    ensures { result ≡ turns label (seen_tree tree.now) }
{
    if tree.jumps_to(label) {
        at_most_one(&other_targets(tree, label))
    } else {
        false
    }
}

/// Whether Loop applies on the label.
pub fn may_loop(work: &Work, label: Label) -> bool
    ensures { result ≡ may_loop (seen_work work.now) label }
{
    match work.node(label) {
        None => false,
        Some(node) => turns(&node.tree, label),
    }
}

/// Makes a loop of the node with the label. Without memory the graph stays.
fn close_node(alloc: Global, work: &mut Work, label: Label) -> Result<(), NoMemory>
    requires applies { may_loop (seen_work work.old) label ≡ true }
    requires room { vec_len work.old.added < 2 ^ 32 }
    ensures ok { OnOk result (seen_work work.new ≡ close_graph label (seen_work work.old)) }
    ensures err { OnErr result (seen_work work.new ≡ seen_work work.old) }
{
    let cell = work.added_len() as u32;
    work.reserve_added()?;
    work.sound();
    match work.take(alloc, label) {
        None => unreachable!(),
        Some(tree) => {
            let mut tree = tree;
            let closed = close_tree(alloc, &mut tree, label, cell);
            work.put(label, tree);
            match closed {
                Ok(None) => Ok(()),
                Ok(Some(kind)) => {
                    work.push_added(kind);
                    Ok(())
                }
                Err(fault) => Err(fault),
            }
        }
    }
}

/// Loop on the node with the label: true where the rule applied, false where it doesn't. With
/// false, and without memory, the graph stays.
pub fn close_loop(alloc: Global, work: &mut Work, label: Label) -> Result<bool, NoMemory>
    requires room { vec_len work.old.added < 2 ^ 32 }
    ensures { CloseLoop result label (seen_work work.old) (seen_work work.new) }
{
    if may_loop(work, label) {
        match close_node(alloc, work, label) {
            Ok(()) => Ok(true),
            Err(fault) => Err(fault),
        }
    } else {
        Ok(false)
    }
}
