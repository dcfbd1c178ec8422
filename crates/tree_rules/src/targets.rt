//! The targets of the live leaves of trees.

ghost use Rattle.std.specs.Prelude.{◌≡◌};
ghost use Rattle.branch_tree.specs.Tree.{seen_tree, seen_end, seen_trees};
ghost use Rattle.control_flow_theory.specs.graph_rules.Shapes.{both_targets, leaf_targets, arms_targets, other_targets, other_arms_targets};
ghost use Rattle.tree_rules.specs.Targets.{seen_targets};

use branch_tree::{End, Label, Tree};

/// The targets of some live leaves: none, one label, the return, or several.
#[derive(Clone, Copy)]
pub enum Targets {
    NoTarget,
    ToLabel(Label),
    Back,
    Several,
}

/// The targets of some leaves together with those of others.
fn both_targets(first: &Targets, others: Targets) -> Targets
    ensures { seen_targets result ≡ both_targets (seen_targets first.now) (seen_targets others) }
{
    match (first, others) {
        (Targets::NoTarget, _) => others,
        (Targets::Several, _) => Targets::Several,
        (_, Targets::Several) => Targets::Several,
        (Targets::ToLabel(to), Targets::NoTarget) => Targets::ToLabel(*to),
        (Targets::Back, Targets::NoTarget) => Targets::Back,
        (Targets::ToLabel(to), Targets::ToLabel(other)) => {
            if *to == other {
                others
            } else {
                Targets::Several
            }
        }
        (Targets::Back, Targets::Back) => others,
        (Targets::ToLabel(_), Targets::Back) => Targets::Several,
        (Targets::Back, Targets::ToLabel(_)) => Targets::Several,
    }
}

/// The target of one leaf; a choice counts as several.
fn leaf_targets(end: &End) -> Targets
    ensures { seen_targets result ≡ leaf_targets (seen_end end.now) }
{
    match end {
        End::Pick { .. } => Targets::Several,
        End::Jump(to) => Targets::ToLabel(*to),
        End::Return => Targets::Back,
        End::Stop => Targets::NoTarget,
        End::Dead => Targets::NoTarget,
    }
}

/// The targets of arms that end in leaves.
pub fn arms_targets(arms: &[Tree]) -> Targets
    ensures { seen_targets result ≡ arms_targets (seen_trees arms.now) }
{
    let mut targets = Targets::NoTarget;
    let mut left = arms.len();
    while left > 0 {
        left -= 1;
        targets = both_targets(&leaf_targets(&arms[left].end), targets);
    }
    targets
}

/// The targets of all live leaves of a tree, except those that jump to the label.
#[cycle(others)]
pub fn other_targets(tree: &Tree, label: Label) -> Targets
    ensures { seen_targets result ≡ other_targets label (seen_tree tree.now) }
{
    match &tree.end {
        End::Pick { arms, .. } => other_arms_targets(arms.as_slice(), label),
        End::Jump(to) => {
            if *to == label {
                Targets::NoTarget
            } else {
                Targets::ToLabel(*to)
            }
        }
        End::Return => Targets::Back,
        End::Stop => Targets::NoTarget,
        End::Dead => Targets::NoTarget,
    }
}

#[cycle(others)]
fn other_arms_targets(arms: &[Tree], label: Label) -> Targets
    ensures { seen_targets result ≡ other_arms_targets label (seen_trees arms.now) }
{
    let mut targets = Targets::NoTarget;
    let mut left = arms.len();
    while left > 0 {
        left -= 1;
        targets = both_targets(&other_targets(&arms[left], label), targets);
    }
    targets
}
