//! The labels that are reached.

ghost use Rattle.std.specs.Prelude.{[], ◌≡◌, ◌≤◌, ◌<◌, ◌*◌, ◌^◌, true, false, length, IfOk, OnOk};
ghost use Rattle.cob_tree.specs.declared.program.Program.{Program};
ghost use Rattle.control_flow_theory.specs.semantics.Graph.{end_of};
ghost use Rattle.branch_tree.specs.Tree.{seen_tree, seen_trees};
ghost use Rattle.pending_returns.specs.levels.Reach.{IsMarked};
ghost use Rattle.flow_graph.specs.Counts.{CountsWithin, IsLargerIn, IsSizeAt};
ghost use Rattle.flow_graph.specs.Jumps.{AddsArmJumps, AddsJumps, ArmsJumpBelow, JumpBelow};
ghost use Rattle.flow_graph.specs.Lowered.{AddsNode, AreMade};
ghost use Rattle.flow_graph.specs.label_trees.Node.{IsWhole};
ghost use Rattle.flow_graph.specs.Reaching.{AddsNodeJumps, AreReachedIn, Begins, IsRangeIn, NodeJumpsBelow};

use crate::adding::push_node;
use crate::graph_sizes::tree_size;
use crate::label_trees::label_tree;
use branch_tree::{End, Node, Tree};
use cob_base::NoMemory;
use cob_tree::Range;
use pending_returns::levels::Reach;
use statement_lowering::LoweringContext;
use statement_lowering::continuations::Continuation;
use std::alloc::Global;

/// Adds the labels to which a tree jumps.
#[cycle(jumps)]
pub fn visit_tree(reach: &mut Reach, tree: &Tree) -> Result<(), NoMemory>
    requires marked { IsMarked reach.old.places.items reach.old.marks.items }
    requires below { JumpBelow (length reach.old.marks.items) (end_of (seen_tree tree.now)) }
    requires small { length reach.old.marks.items ≤ 2 ^ 32 }
    ensures adds { OnOk result
        (AddsJumps (end_of (seen_tree tree.now)) reach.old.places.items reach.new.places.items) }
    ensures marked { IsMarked reach.new.places.items reach.new.marks.items }
    ensures size { length reach.new.marks.items ≡ length reach.old.marks.items }
{
    match &tree.end {
        End::Pick { arms, .. } => visit_arms(reach, arms.as_slice()),
        End::Jump(to) => reach.visit(to.number() as u32),
        End::Return => Ok(()),
        End::Stop => Ok(()),
        End::Dead => Ok(()),
    }
}

#[cycle(jumps)]
fn visit_arms(reach: &mut Reach, arms: &[Tree]) -> Result<(), NoMemory>
    requires marked { IsMarked reach.old.places.items reach.old.marks.items }
    requires below { ArmsJumpBelow (length reach.old.marks.items) (seen_trees arms.now) }
    requires small { length reach.old.marks.items ≤ 2 ^ 32 }
    ensures adds { OnOk result
        (AddsArmJumps (seen_trees arms.now) reach.old.places.items reach.new.places.items) }
    ensures marked { IsMarked reach.new.places.items reach.new.marks.items }
    ensures size { length reach.new.marks.items ≡ length reach.old.marks.items }
{
    for arm in arms {
        visit_tree(reach, arm)?;
    }
    Ok(())
}

/// Adds the node at a label, and the labels to which it jumps, and answers how many statements its
/// tree has.
fn visit_node(
    alloc: Global,
    reach: &mut Reach,
    nodes: &mut Vec<Node>,
    spots: &[Continuation<'_>],
    label: u32,
    range: Range,
    telling: &LoweringContext<'_>,
) -> Result<u64, NoMemory>
    requires marked { IsMarked reach.old.places.items reach.old.marks.items }
    requires whole { IsWhole telling.now spots.now }
    requires there { label < 3 * length spots.now }
    requires below { NodeJumpsBelow telling.now spots.now range label
        (length reach.old.marks.items) }
    requires small { length reach.old.marks.items ≤ 2 ^ 32 }
    ensures adds { IfOk result (λ size. AddsNodeJumps telling.now spots.now range label
        reach.old.places.items reach.new.places.items) }
    ensures node { IfOk result (λ size. AddsNode telling.now spots.now range label
        nodes.old.items nodes.new.items) }
    ensures counts { IfOk result (IsSizeAt telling.now spots.now range label) }
    ensures marked { IsMarked reach.new.places.items reach.new.marks.items }
    ensures size { length reach.new.marks.items ≡ length reach.old.marks.items }
{
    let tree = label_tree(alloc, spots, label, range, telling)?;
    let size = tree_size(&tree);
    match visit_tree(reach, &tree) {
        Ok(()) => {
            push_node(nodes, label, tree)?;
            Ok(size)
        }
        Err(fault) => {
            drop(tree);
            Err(fault)
        }
    }
}

/// A range, and the label at which it begins.
#[derive(Clone, Copy)]
pub struct RangeEntry {
    pub range: Range,
    pub entry: u32,
}

/// Sets `reach` to the labels that are reached in the range from this one, and adds their nodes, in
/// the order in which it comes to them; true then. As soon as they have more than so many labels
/// and statements it gives up: false then.
pub fn reach_from(
    alloc: Global,
    reach: &mut Reach,
    nodes: &mut Vec<Node>,
    spots: &[Continuation<'_>],
    begin: RangeEntry,
    telling: &LoweringContext<'_>,
    most: u64,
) -> Result<bool, NoMemory>
    requires marked { IsMarked reach.old.places.items reach.old.marks.items }
    requires whole { IsWhole telling.now spots.now }
    requires size { length reach.old.marks.items ≡ 3 * length spots.now }
    requires entry { Begins telling.now spots.now begin.range begin.entry }
    requires range { (program : Program) × IsRangeIn telling.now spots.now begin.range program }
    requires none { nodes.old.items ≡ [] }
    ensures reach { IfOk result (λ all. all ≡ true →
        AreReachedIn telling.now spots.now begin.range reach.new.places.items) }
    ensures made { IfOk result (λ all. all ≡ true →
        AreMade telling.now spots.now begin.range reach.new.places.items nodes.new.items) }
    ensures within { IfOk result (λ all. all ≡ true →
        CountsWithin telling.now spots.now begin.range reach.new.places.items most) }
    ensures larger { IfOk result (λ all. all ≡ false →
        IsLargerIn telling.now spots.now begin.range most) }
    ensures marked { IsMarked reach.new.places.items reach.new.marks.items }
    ensures size { length reach.new.marks.items ≡ length reach.old.marks.items }
{
    reach.clear();
    reach.visit(begin.entry)?;
    let mut count = 0u64;
    for at in 0..reach.marks.len() {
        if at >= reach.places.len() {
            return Ok(true);
        }
        let label = reach.places[at];
        let size = visit_node(alloc, reach, nodes, spots, label, begin.range, telling)?;
        count = count.saturating_add(size).saturating_add(1);
        if count > most {
            return Ok(false);
        }
    }
    Ok(true)
}
