//! Puts a tree in the place of a jump.

ghost use Rattle.std.specs.Prelude.{◌≡◌, ◌≤◌};
ghost use Rattle.control_flow_theory.specs.graph_rules.Shapes.{leaves_to, arms_leaves_to};
ghost use Rattle.branch_tree.specs.Tree.{seen_tree, seen_trees};
ghost use Rattle.tree_rules.specs.Putting.{Puts, Places, PlacesOne};

use branch_tree::{End, Label, Tree};
use cob_base::Items;
use std::mem;

/// What became of a tree that was to take the place of a jump: it did; it is given back, since no
/// leaf jumps to the label; or it is given back, since there is no memory.
pub enum Substituted {
    Done,
    Elsewhere(Tree),
    NoRoom(Tree),
}

/// Puts a tree in the place of a jump to the label, where there is one. Without memory the new one
/// is given back, and the tree stays.
#[cycle(place)]
fn place(tree: &mut Tree, label: Label, by: Tree) -> Substituted
    requires { leaves_to label (seen_tree tree.old) ≤ 1 }
    ensures { Places result label (seen_tree by) (seen_tree tree.old) (seen_tree tree.new) }
{
    match mem::replace(&mut tree.end, End::Dead) {
        End::Pick { by: picker, arms } => {
            let mut arms = arms.into_vec();
            let placed = place_one(arms.as_mut_slice(), label, by);
            tree.end_by(End::Pick {
                by: picker,
                arms: Items::from_vec(arms),
            });
            placed
        }
        End::Jump(to) => {
            if to == label {
                match tree.append_tree(by) {
                    None => Substituted::Done,
                    Some(back) => {
                        tree.end_by(End::Jump(to));
                        Substituted::NoRoom(back)
                    }
                }
            } else {
                tree.end_by(End::Jump(to));
                Substituted::Elsewhere(by)
            }
        }
        leaf => {
            tree.end_by(leaf);
            Substituted::Elsewhere(by)
        }
    }
}

#[cycle(place)]
fn place_one(arms: &mut [Tree], label: Label, by: Tree) -> Substituted
    requires { arms_leaves_to label (seen_trees arms.old) ≤ 1 }
    ensures { PlacesOne result label (seen_tree by) (seen_trees arms.old) (seen_trees arms.new) }
{
    let mut by = by;
    for at in 0..arms.len() {
        match place(&mut arms[at], label, by) {
            Substituted::Done => return Substituted::Done,
            Substituted::Elsewhere(back) => by = back,
            Substituted::NoRoom(back) => return Substituted::NoRoom(back),
        }
    }
    Substituted::Elsewhere(by)
}

/// Puts a tree in the place of the one jump to the label. Without memory the new one is given back,
/// and the tree stays.
pub fn put(tree: &mut Tree, label: Label, by: Tree) -> Option<Tree>
    requires { leaves_to label (seen_tree tree.old) ≡ 1 }
    ensures { Puts result label (seen_tree by) (seen_tree tree.old) (seen_tree tree.new) }
{
    match place(tree, label, by) {
        Substituted::Done => None,
        Substituted::Elsewhere(_) => unreachable!(),
        Substituted::NoRoom(back) => Some(back),
    }
}
