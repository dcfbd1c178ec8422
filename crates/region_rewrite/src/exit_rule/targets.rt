//! The targets of a node's jumps, in label order.

ghost use Rattle.std.specs.Prelude.{◌≡◌, OnOk};
ghost use Rattle.cob_base.specs.Answers.{Makes};
ghost use Rattle.control_flow_theory.specs.structuring.Targets.{inserted, tree_targets, trees_targets, targets_of};
ghost use Rattle.branch_tree.specs.Tree.{seen_tree, seen_trees};

use branch_tree::{End, Label, Tree};
use cob_base::{Items, NoMemory};
use std::alloc::Global;

/// Inserts a label into labels in ascending order, unless it is there.
fn insert_label(labels: &mut Vec<Label>, label: Label) -> Result<(), NoMemory>
    ensures { OnOk result (labels.new.items ≡ inserted label labels.old.items) }
{
    for at in 0..labels.len() {
        if label == labels[at] {
            return Ok(());
        }
        if label.number() < labels[at].number() {
            labels.insert(at, label)?;
            return Ok(());
        }
    }
    labels.push(label)?;
    Ok(())
}

/// Adds the targets of the tree's jumps, except the label, to those that were found before.
#[cycle(targets)]
fn add_targets(tree: &Tree, label: Label, found: &mut Vec<Label>) -> Result<(), NoMemory>
    ensures { OnOk result (found.new.items
        ≡ tree_targets label (seen_tree tree.now) found.old.items) }
{
    match &tree.end {
        End::Pick { arms, .. } => add_arms(arms.as_slice(), label, found),
        End::Jump(to) => {
            if *to == label {
                Ok(())
            } else {
                insert_label(found, *to)
            }
        }
        End::Return => Ok(()),
        End::Stop => Ok(()),
        End::Dead => Ok(()),
    }
}

#[cycle(targets)]
fn add_arms(arms: &[Tree], label: Label, found: &mut Vec<Label>) -> Result<(), NoMemory>
    ensures { OnOk result (found.new.items
        ≡ trees_targets label (seen_trees arms.now) found.old.items) }
{
    for arm in arms {
        add_targets(arm, label, found)?;
    }
    Ok(())
}

/// The labels other than this one to which the tree jumps, in label order.
pub fn targets_of(alloc: Global, tree: &Tree, label: Label) -> Result<Items<Label>, NoMemory>
    ensures { Makes (targets_of label (seen_tree tree.now)) result }
{
    let mut found = Vec::new(alloc);
    add_targets(tree, label, &mut found)?;
    Ok(Items::from_vec(found))
}
