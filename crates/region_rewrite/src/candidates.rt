//! The labels on which rules are to be tried.

ghost use Rattle.std.specs.Prelude.{◌≡◌, OnOk};
ghost use Rattle.control_flow_theory.specs.graph_rules.Reduced.{tree_in};
ghost use Rattle.branch_tree.specs.Tree.{seen_tree, seen_trees};
ghost use Rattle.graph_rewriting.specs.Helds.{seen_work};
ghost use Rattle.region_rewrite.specs.Candidates.{AllIn, ArmTargetsIn, Grows, IsLowest, TargetsIn};
ghost use Rattle.region_rewrite.specs.Rules.{applies};

use crate::exit_rule::may_exit;
use branch_tree::{End, Label, Tree};
use cob_base::NoMemory;
use graph_rewriting::Work;
use loop_rules::may_loop;
use std::collections::BTreeSet;
use tree_rules::may_inline;

/// A rule that is tried on one node after another.
#[derive(Clone, Copy)]
pub enum Rule {
    Loop,
    Inline,
    Exits,
}

/// Whether the rule applies on the label.
fn applies(rule: Rule, work: &Work, label: Label) -> bool
    ensures { result ≡ applies rule (seen_work work.now) label }
{
    match rule {
        Rule::Loop => may_loop(work, label),
        Rule::Inline => may_inline(work, label),
        Rule::Exits => may_exit(work, label),
    }
}

/// The lowest label on which the rule applies, among those where it is to be tried; it is taken out
/// of the set.
pub fn next(rule: Rule, work: &Work, labels: &mut BTreeSet<Label>) -> Option<Label>
    requires { AllIn (applies rule (seen_work work.now)) labels.old }
    ensures { IsLowest result (applies rule (seen_work work.now)) labels.new }
{
    while let Some(label) = labels.pop_first() {
        if applies(rule, work, label) {
            return Some(label);
        }
    }
    None
}

/// Adds the labels to which leaves of the tree jump to the set.
#[cycle(targets)]
fn put_targets(tree: &Tree, labels: &mut BTreeSet<Label>) -> Result<(), NoMemory>
    ensures grows { OnOk result (Grows labels.old labels.new) }
    ensures targets { OnOk result (TargetsIn (seen_tree tree.now) labels.new) }
{
    match &tree.end {
        End::Pick { arms, .. } => put_arm_targets(arms.as_slice(), labels),
        End::Jump(to) => {
            labels.insert(*to)?;
            Ok(())
        }
        End::Return => Ok(()),
        End::Stop => Ok(()),
        End::Dead => Ok(()),
    }
}

#[cycle(targets)]
fn put_arm_targets(arms: &[Tree], labels: &mut BTreeSet<Label>) -> Result<(), NoMemory>
    ensures grows { OnOk result (Grows labels.old labels.new) }
    ensures targets { OnOk result (ArmTargetsIn (seen_trees arms.now) labels.new) }
{
    for arm in arms {
        put_targets(arm, labels)?;
    }
    Ok(())
}

/// Adds the labels to which leaves of the node's tree jump to the set.
pub fn put_node_targets(
    work: &Work,
    label: Label,
    labels: &mut BTreeSet<Label>,
) -> Result<(), NoMemory>
    ensures grows { OnOk result (Grows labels.old labels.new) }
    ensures targets { OnOk result (TargetsIn (tree_in (seen_work work.now).nodes label)
        labels.new) }
{
    match work.node(label) {
        None => Ok(()),
        Some(node) => put_targets(&node.tree, labels),
    }
}
