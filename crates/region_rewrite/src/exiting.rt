//! Exits, where neither Loop nor Inline applies, and all rules in their order.

ghost use Rattle.std.specs.Prelude.{◌≡◌, ◌+◌, ◌≤◌, ◌^◌, true, None, OnOk};
ghost use Rattle.std.specs.Vec.{vec_len};
ghost use Rattle.control_flow_theory.specs.structuring.Closes.{any_step, exits_graph, or_exits, reduced_by_all};
ghost use Rattle.control_flow_theory.specs.graph_rules.Reduced.{join_graph};
ghost use Rattle.region_rewrite.specs.exit_rule.Exits.{may_exit};
ghost use Rattle.region_rewrite.specs.Reducing.{HasRoom, StateHolds, StateHoldsBut, graph_in};
ghost use Rattle.region_rewrite.specs.Steps.{Steps};

use crate::candidates::{Rule, next, put_node_targets};
use crate::exit_rule::close_exits;
use crate::reducing::{Reducing, settle, step};
use branch_tree::Label;
use cob_base::NoMemory;
use std::alloc::Global;

/// Exits on a label where it applies, and Join.
fn exits_on(alloc: Global, state: &mut Reducing, label: Label) -> Result<(), NoMemory>
    requires applies { may_exit (graph_in state.old) label ≡ true }
    requires but { StateHoldsBut label state.old }
    requires room { HasRoom state.old }
    ensures graph { OnOk result (graph_in state.new
        ≡ join_graph (exits_graph label (graph_in state.old))) }
    ensures holds { OnOk result (StateHolds state.new) }
{
    state.work.sound();
    put_node_targets(&state.work, label, &mut state.inlines)?;
    close_exits(alloc, &mut state.work, label)?;
    settle(alloc, state, label)
}

/// Exits on the lowest label where it applies.
fn exits_lowest(alloc: Global, state: &mut Reducing) -> Result<bool, NoMemory>
    requires holds { StateHolds state.old }
    requires room { HasRoom state.old }
    ensures holds { OnOk result (StateHolds state.new) }
    ensures step { Steps result (or_exits (graph_in state.old) None) (graph_in state.old)
        (graph_in state.new) }
{
    state.work.sound();
    match next(Rule::Exits, &state.work, &mut state.exits) {
        None => Ok(false),
        Some(label) => {
            exits_on(alloc, state, label)?;
            Ok(true)
        }
    }
}

/// One step of Loop, Inline or Exits, where one applies.
fn any_step(alloc: Global, state: &mut Reducing) -> Result<bool, NoMemory>
    requires holds { StateHolds state.old }
    requires room { HasRoom state.old }
    ensures holds { OnOk result (StateHolds state.new) }
    ensures step { Steps result (any_step (graph_in state.old)) (graph_in state.old)
        (graph_in state.new) }
{
    if step(alloc, state)? {
        return Ok(true);
    }
    exits_lowest(alloc, state)
}

/// Makes steps of Loop, Inline and Exits as long as one applies, at most this many. Without memory
/// some are done.
pub fn all_steps(alloc: Global, state: &mut Reducing, most: usize) -> Result<(), NoMemory>
    requires holds { StateHolds state.old }
    requires room { vec_len state.old.work.added + most ≤ 2 ^ 32 }
    ensures { OnOk result (graph_in state.new ≡ reduced_by_all most (graph_in state.old)) }
{
    let mut left = most;
    while left > 0 {
        left -= 1;
        if !any_step(alloc, state)? {
            return Ok(());
        }
    }
    Ok(())
}
