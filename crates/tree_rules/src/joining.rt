//! Join: choices that become statements.

ghost use Rattle.std.specs.Prelude.{◌≡◌, ◌<◌, ◌||◌, All, OnOk};
ghost use Rattle.std.specs.VecDeque.{deque_len, deque_capacity};
ghost use Rattle.control_flow_theory.specs.graph_rules.Shapes.{join_by, joined, joined_arms, arms_targets};
ghost use Rattle.control_flow_theory.specs.graph_rules.Reduced.{at_most_one};
ghost use Rattle.tree_rules.specs.Joining.{choice_then, may_join, arms_may_join, JoinsAll, JoinsAt};
ghost use Rattle.tree_rules.specs.Rooms.{HasRoom};
ghost use Rattle.branch_tree.specs.Choosers.{seen_picker};
ghost use Rattle.graph_rewriting.specs.Helds.{seen_work};
ghost use Rattle.branch_tree.specs.Tree.{seen_tree, seen_body, seen_end, seen_trees};

use crate::targets::{Targets, arms_targets};
use branch_tree::{End, Label, Picker, Piece, Tree};
use cob_base::{Items, NoMemory};
use graph_rewriting::Work;
use std::alloc::Global;
use std::mem;

/// Makes room for one more piece in each tree that ends in a choice. Without memory only some of
/// them have room.
#[cycle(room)]
fn make_room(tree: &mut Tree) -> Result<(), NoMemory>
    ensures same { seen_tree tree.new ≡ seen_tree tree.old }
    ensures room { OnOk result (HasRoom tree.new) }
{
    match mem::replace(&mut tree.end, End::Dead) {
        End::Pick { by, arms } => {
            let mut arms = arms.into_vec();
            let made = make_room_in(arms.as_mut_slice());
            let arms = Items::from_vec(arms);
            tree.end_by(End::Pick { by, arms });
            made?;
            tree.body.reserve(1)?;
        }
        leaf => tree.end_by(leaf),
    }
    Ok(())
}

#[cycle(room)]
fn make_room_in(arms: &mut [Tree]) -> Result<(), NoMemory>
    ensures same { seen_trees arms.new ≡ seen_trees arms.old }
    ensures room { OnOk result (All HasRoom arms.new) }
{
    for at in 0..arms.len() {
        make_room(&mut arms[at])?;
    }
    Ok(())
}

/// Adds the choice as a statement at the end of the tree's body, for which there is room, and sets
/// the end.
fn join_then(tree: &mut Tree, by: Picker, arms: Items<Tree>, end: End)
    requires { deque_len tree.old.body < deque_capacity tree.old.body }
    ensures { seen_tree tree.new ≡ choice_then (seen_body tree.old.body.items) (seen_picker by)
        (seen_trees arms) (seen_end end) }
{
    tree.body.push_back_reserved(Piece::Choose { by, arms });
    tree.end_by(end);
}

/// Puts the choice after the tree's body, for which there is room: as a statement, where its arms
/// have at most one target; the answer says whether they have.
fn join_pick(tree: &mut Tree, by: Picker, arms: Items<Tree>) -> bool
    requires { deque_len tree.old.body < deque_capacity tree.old.body }
    ensures tree { seen_tree tree.new ≡ join_by (seen_body tree.old.body.items) (seen_picker by)
        (seen_trees arms) (arms_targets (seen_trees arms)) }
    ensures joins { result ≡ at_most_one (arms_targets (seen_trees arms)) }
{
    match arms_targets(arms.as_slice()) {
        Targets::NoTarget => join_then(tree, by, arms, End::Dead),
        Targets::ToLabel(to) => join_then(tree, by, arms, End::Jump(to)),
        Targets::Back => join_then(tree, by, arms, End::Return),
        Targets::Several => {
            tree.end_by(End::Pick { by, arms });
            return false;
        }
    }
    true
}

fn either(one: bool, other: bool) -> bool
    ensures { result ≡ (one || other) }
{
    one || other
}

/// Makes all joins of a tree in which there is room, inner ones first: true where there is one.
#[cycle(join)]
fn join_all(tree: &mut Tree) -> bool
    requires { HasRoom tree.old }
    ensures tree { seen_tree tree.new ≡ joined (seen_tree tree.old) }
    ensures joins { result ≡ may_join (seen_tree tree.old) }
{
    match mem::replace(&mut tree.end, End::Dead) {
        End::Pick { by, arms } => {
            let mut arms = arms.into_vec();
            let inner = join_arms(arms.as_mut_slice());
            let outer = join_pick(tree, by, Items::from_vec(arms));
            either(inner, outer)
        }
        leaf => {
            tree.end_by(leaf);
            false
        }
    }
}

#[cycle(join)]
fn join_arms(arms: &mut [Tree]) -> bool
    requires { All HasRoom arms.old }
    ensures arms { seen_trees arms.new ≡ joined_arms (seen_trees arms.old) }
    ensures joins { result ≡ arms_may_join (seen_trees arms.old) }
{
    let mut joins = false;
    for at in 0..arms.len() {
        let joined = join_all(&mut arms[at]);
        joins = either(joins, joined);
    }
    joins
}

/// Joins all choices of the tree that can be joined, inner ones first: true where one is. Without
/// memory, as where none is, the tree stays.
pub fn join(tree: &mut Tree) -> Result<bool, NoMemory>
    ensures { JoinsAll result (seen_tree tree.old) (seen_tree tree.new) }
{
    make_room(tree)?;
    Ok(join_all(tree))
}

/// Join on the tree of the node with the label: true where a choice of it is joined. Without
/// memory, as where none is, the graph stays.
pub fn join_at(alloc: Global, work: &mut Work, label: Label) -> Result<bool, NoMemory>
    ensures { JoinsAt result label (seen_work work.old) (seen_work work.new) }
{
    work.sound();
    match work.take(alloc, label) {
        None => Ok(false),
        Some(tree) => {
            let mut tree = tree;
            let joins = join(&mut tree);
            work.put(label, tree);
            joins
        }
    }
}
