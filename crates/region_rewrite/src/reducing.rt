//! Loop and Inline, on the lowest label where they apply, Loop first.

ghost use Rattle.std.specs.Prelude.{◌≡◌, ◌+◌, ◌≤◌, ◌^◌, true, false, OnOk};
ghost use Rattle.std.specs.Vec.{vec_len};
ghost use Rattle.control_flow_theory.specs.semantics.Graph.{Label};
ghost use Rattle.control_flow_theory.specs.graph_rules.Reduced.{close_graph, has_node, inline_graph, join_graph, reduced, rule_step};
ghost use Rattle.loop_rules.specs.Nodes.{may_loop};
ghost use Rattle.tree_rules.specs.Inlining.{may_inline};
ghost use Rattle.region_rewrite.specs.Candidates.{Enters};
ghost use Rattle.region_rewrite.specs.Reducing.{HasRoom, StateHolds, StateHoldsBut, graph_in};
ghost use Rattle.region_rewrite.specs.Steps.{LoopSteps, Steps};

use crate::candidates::{Rule, next, put_node_targets};
use branch_tree::Label;
use cob_base::NoMemory;
use graph_rewriting::Work;
use loop_rules::close_loop;
use std::alloc::Global;
use std::collections::BTreeSet;
use tree_rules::{inline_into, join_at};

/// A graph while the rules reduce it, and the labels on which each is to be tried.
#[derive(Drop)]
pub struct Reducing {
    pub work: Work,
    pub loops: BTreeSet<Label>,
    pub inlines: BTreeSet<Label>,
    pub exits: BTreeSet<Label>,
}

/// Adds the label to those on which each rule is to be tried.
fn enter(state: &mut Reducing, label: Label) -> Result<(), NoMemory>
    ensures work { state.new.work ≡ state.old.work }
    ensures loops { OnOk result (Enters label state.old.loops state.new.loops) }
    ensures inlines { OnOk result (Enters label state.old.inlines state.new.inlines) }
    ensures exits { OnOk result (Enters label state.old.exits state.new.exits) }
{
    state.loops.insert(label)?;
    state.inlines.insert(label)?;
    state.exits.insert(label)?;
    Ok(())
}

/// Joins the tree of a node, which has changed. Each rule is to be tried on this node, and Inline
/// on those to which its leaves jumped.
pub fn settle(alloc: Global, state: &mut Reducing, label: Label) -> Result<(), NoMemory>
    requires has { has_node (graph_in state.old).nodes label ≡ true }
    requires but { StateHoldsBut label state.old }
    ensures graph { OnOk result (graph_in state.new ≡ join_graph (graph_in state.old)) }
    ensures holds { OnOk result (StateHolds state.new) }
{
    state.work.sound();
    put_node_targets(&state.work, label, &mut state.inlines)?;
    join_at(alloc, &mut state.work, label)?;
    enter(state, label)
}

/// Loop on a label where it applies.
fn loop_on(alloc: Global, state: &mut Reducing, label: Label) -> Result<(), NoMemory>
    requires applies { may_loop (graph_in state.old) label ≡ true }
    requires but { StateHoldsBut label state.old }
    requires room { HasRoom state.old }
    ensures graph { OnOk result (graph_in state.new ≡ close_graph label (graph_in state.old)) }
    ensures holds { OnOk result (StateHolds state.new) }
{
    state.work.sound();
    put_node_targets(&state.work, label, &mut state.inlines)?;
    close_loop(alloc, &mut state.work, label)?;
    enter(state, label)
}

/// Inline on a label where it applies, and Join where it is put.
fn inline_on(alloc: Global, state: &mut Reducing, label: Label) -> Result<(), NoMemory>
    requires applies { may_inline (graph_in state.old) label ≡ true }
    requires but { StateHoldsBut label state.old }
    ensures graph { OnOk result (graph_in state.new
        ≡ join_graph (inline_graph label (graph_in state.old))) }
    ensures holds { OnOk result (StateHolds state.new) }
{
    state.work.sound();
    match inline_into(alloc, &mut state.work, label)? {
        None => unreachable!(),
        Some(from) => settle(alloc, state, from),
    }
}

/// Loop on the lowest label where it applies.
fn loop_lowest(alloc: Global, state: &mut Reducing) -> Result<bool, NoMemory>
    requires holds { StateHolds state.old }
    requires room { HasRoom state.old }
    ensures holds { OnOk result (StateHolds state.new) }
    ensures step { LoopSteps result (graph_in state.old) (graph_in state.new) }
{
    state.work.sound();
    match next(Rule::Loop, &state.work, &mut state.loops) {
        None => Ok(false),
        Some(label) => {
            loop_on(alloc, state, label)?;
            Ok(true)
        }
    }
}

/// Inline on the lowest label where it applies, where Loop applies on none.
fn inline_lowest(alloc: Global, state: &mut Reducing) -> Result<bool, NoMemory>
    requires holds { StateHolds state.old }
    requires none { (l : Label) → may_loop (graph_in state.old) l ≡ false }
    ensures holds { OnOk result (StateHolds state.new) }
    ensures step { Steps result (rule_step (graph_in state.old)) (graph_in state.old)
        (graph_in state.new) }
{
    state.work.sound();
    match next(Rule::Inline, &state.work, &mut state.inlines) {
        None => Ok(false),
        Some(label) => {
            inline_on(alloc, state, label)?;
            Ok(true)
        }
    }
}

/// One step of Loop or Inline, where one applies.
pub fn step(alloc: Global, state: &mut Reducing) -> Result<bool, NoMemory>
    requires holds { StateHolds state.old }
    requires room { HasRoom state.old }
    ensures holds { OnOk result (StateHolds state.new) }
    ensures step { Steps result (rule_step (graph_in state.old)) (graph_in state.old)
        (graph_in state.new) }
{
    if loop_lowest(alloc, state)? {
        return Ok(true);
    }
    inline_lowest(alloc, state)
}

/// Makes steps of Loop and Inline as long as one applies, at most this many. Without memory some
/// are done.
pub fn steps(alloc: Global, state: &mut Reducing, most: usize) -> Result<(), NoMemory>
    requires holds { StateHolds state.old }
    requires room { vec_len state.old.work.added + most ≤ 2 ^ 32 }
    ensures holds { OnOk result (StateHolds state.new) }
    ensures graph { OnOk result (graph_in state.new ≡ reduced most (graph_in state.old)) }
{
    let mut left = most;
    while left > 0 {
        left -= 1;
        if !step(alloc, state)? {
            return Ok(());
        }
    }
    Ok(())
}
