//! The dispatch.

ghost use Rattle.std.specs.Prelude.{◌≡◌, ◌<◌, ◌≤◌, ◌^◌, suc, length, map, OnOk, OnErr};
ghost use Rattle.std.specs.Vec.{vec_len, vec_capacity};
ghost use Rattle.control_flow_theory.specs.structuring.Closes.{dispatch_graph, none_left_out};
ghost use Rattle.control_flow_theory.specs.structuring.Dispatches.{dispatched, labels_of, number_in, return_if, set_to};
ghost use Rattle.branch_tree.specs.Graph.{seen_nodes};
ghost use Rattle.graph_rewriting.specs.Helds.{seen_work};
ghost use Rattle.graph_rewriting.specs.Rewriting.{bare, WithNodes};
ghost use Rattle.branch_tree.specs.Tree.{seen_tree, seen_trees, seen_end, seen_body};
ghost use Rattle.loop_rules.specs.Forms.{looped_by};
ghost use Rattle.state_dispatch.specs.Dispatching.{taken_trees, all_taken, Clears, one_node};
ghost use Rattle.state_dispatch.specs.Trees.{state_loop, choice_of};

use crate::numbers::number_in;
use crate::returns::trees_return;
use branch_tree::{Added, End, Label, Leaves, Picker, Piece, Test, Tree, drop_pieces};
use cob_base::{Items, NoMemory};
use graph_rewriting::Work;
use loop_rules::{Turning, looped};
use std::alloc::Global;
use std::collections::VecDeque;

/// Takes out the trees at the labels, in their order; there is room for them.
fn take_trees(alloc: Global, work: &mut Work, labels: &[Label], room: Vec<Tree>) -> Vec<Tree>
    requires none { vec_len room ≡ 0 }
    requires enough { length labels.now ≤ vec_capacity room }
    ensures trees { map seen_tree result.items
        ≡ taken_trees labels.now (seen_nodes work.old.nodes) }
    ensures nodes { WithNodes (all_taken labels.now (seen_nodes work.old.nodes)) work.old work.new }
{
    let mut trees = room;
    for label in labels {
        match work.take(alloc, *label) {
            None => {}
            Some(tree) => trees.push_reserved(tree),
        }
    }
    trees
}

/// Removes the nodes at the labels, except the entry's.
fn leave_entry(work: &mut Work, labels: &[Label])
    requires { Clears work.old.entry labels.now (seen_nodes work.old.nodes) }
    ensures { WithNodes (one_node work.old.entry bare) work.old work.new }
{
    let entry = work.entry();
    for label in labels {
        if *label != entry {
            work.remove(*label);
        }
    }
}

fn return_if(returns: bool) -> End
    ensures { seen_end result ≡ return_if returns }
{
    if returns { End::Return } else { End::Dead }
}

/// The loop over a choice among the arms by the state, after these pieces, which have room for it.
fn gathered(
    alloc: Global,
    arms: Vec<Tree>,
    before: Vec<Piece>,
    state: u32,
    labels: Items<Label>,
    returns: bool,
) -> Tree
    requires { vec_len before < vec_capacity before }
    ensures { seen_tree result ≡ looped_by (state_loop state labels) (seen_body before.items)
        (choice_of state (seen_trees arms.items)) (return_if returns) }
{
    let mut tree = Tree {
        body: VecDeque::new(alloc),
        end: End::Pick {
            by: Picker::ByCell { cell: state },
            arms: Items::from_vec(arms),
        },
    };
    let turning = Turning {
        after: false,
        turned: false,
        test: Test::Is {
            cell: state,
            value: 0,
        },
        leaves: Leaves::State {
            cell: state,
            labels,
        },
    };
    looped(&mut tree, before, turning, return_if(returns));
    tree
}

/// Makes one node of all nodes, whose labels these are, after these pieces, which have room for it.
fn gather(
    alloc: Global,
    work: &mut Work,
    labels: Vec<Label>,
    before: Vec<Piece>,
    room: Vec<Tree>,
    state: u32,
)
    requires labels { labels.items ≡ labels_of (seen_nodes work.old.nodes) }
    requires space { vec_len before < vec_capacity before }
    requires first { seen_body before.items
        ≡ set_to state (number_in (labels_of (seen_nodes work.old.nodes)) work.old.entry) }
    requires none { vec_len room ≡ 0 }
    requires enough { vec_len labels ≤ vec_capacity room }
    ensures { WithNodes (one_node work.old.entry
        (dispatched none_left_out state work.old.entry (seen_nodes work.old.nodes))) work.old
        work.new }
{
    work.sound();
    let arms = take_trees(alloc, work, labels.as_slice(), room);
    leave_entry(work, labels.as_slice());
    let returns = trees_return(arms.as_slice());
    let tree = gathered(alloc, arms, before, state, Items::from_vec(labels), returns);
    let entry = work.entry();
    work.put(entry, tree);
}

/// Makes one node of all nodes, which loops over a choice by a state. Without memory the graph
/// stays.
pub fn dispatch(alloc: Global, work: &mut Work) -> Result<(), NoMemory>
    requires numbered { suc (length work.old.nodes) < 2 ^ 32 }
    requires room { vec_len work.old.added < 2 ^ 32 }
    ensures ok { OnOk result (seen_work work.new ≡ dispatch_graph (seen_work work.old)) }
    ensures err { OnErr result (seen_work work.new ≡ seen_work work.old) }
{
    let state = work.added_len() as u32;
    work.reserve_added()?;
    let labels = work.labels(alloc)?;
    let mut before = Vec::with_capacity(alloc, 2)?;
    let room = match Vec::with_capacity(alloc, labels.len()) {
        Ok(room) => room,
        Err(_) => {
            drop_pieces(before);
            return Err(NoMemory);
        }
    };
    before.push_reserved(Piece::Set {
        cell: state,
        value: number_in(labels.as_slice(), work.entry()),
    });
    gather(alloc, work, labels, before, room, state);
    work.push_added(Added::State);
    Ok(())
}
