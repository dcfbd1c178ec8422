//! All rules in their order.

ghost use Rattle.std.specs.Prelude.{◌≡◌, ◌<◌, ◌+◌, ◌*◌, ◌^◌, suc, true, length, IfOk, OnOk};
ghost use Rattle.std.specs.Vec.{vec_len};
ghost use Rattle.std.specs.BTreeSet.{contains};
ghost use Rattle.std.specs.Ordering.{nat_cmp};
ghost use Rattle.control_flow_theory.specs.semantics.Graph.{Label};
ghost use Rattle.control_flow_theory.specs.structuring.Closes.{IsClosed, closed_graph, dispatch_rest, reduced_by_all};
ghost use Rattle.control_flow_theory.specs.graph_rules.Reduced.{has_node, join_graph, reduced, size};
ghost use Rattle.control_flow_theory.specs.graph_rules.Shapes.{joined};
ghost use Rattle.branch_tree.specs.Graph.{seen_graph, seen_nodes};
ghost use Rattle.graph_rewriting.specs.Helds.{seen_work};
ghost use Rattle.region_rewrite.specs.Candidates.{Fixed};
ghost use Rattle.region_rewrite.specs.Reducing.{StateHolds, graph_in};
ghost use Rattle.region_rewrite.specs.Shaping.{IsSmall};

use crate::exiting::all_steps;
use crate::joining::{enough_steps, join_graph};
use crate::reducing::{Reducing, steps};
use branch_tree::{Graph, Label, Node};
use cob_base::NoMemory;
use graph_rewriting::{Work, drop_work};
use state_dispatch::dispatch;
use std::alloc::Global;
use std::collections::BTreeSet;

/// The labels of the nodes.
fn labels_in(alloc: Global, nodes: &[Node]) -> Result<BTreeSet<Label>, NoMemory>
    ensures { IfOk result (λ labels. (l : Label) → has_node (seen_nodes nodes.now) l ≡ true →
        contains nat_cmp labels l ≡ true) }
{
    let mut labels = BTreeSet::new(alloc);
    for node in nodes {
        labels.insert(node.label)?;
    }
    Ok(labels)
}

/// A joined graph, with each rule to be tried on each label.
fn begun(alloc: Global, graph: Graph) -> Result<Reducing, NoMemory>
    requires closed { IsClosed (seen_graph graph) }
    requires joined { Fixed joined (seen_nodes graph.nodes.items) }
    ensures holds { IfOk result StateHolds }
    ensures graph { IfOk result (λ state. graph_in state ≡ seen_graph graph) }
{
    let loops = labels_in(alloc, &graph.nodes);
    let inlines = labels_in(alloc, &graph.nodes);
    let exits = labels_in(alloc, &graph.nodes);
    let work = Work::from_graph(alloc, graph)?;
    match (loops, inlines, exits) {
        (Ok(loops), Ok(inlines), Ok(exits)) => Ok(Reducing {
            work,
            loops,
            inlines,
            exits,
        }),
        _ => {
            drop_work(work);
            Err(NoMemory)
        }
    }
}

/// The dispatch, where several nodes are left.
fn dispatch_rest(alloc: Global, work: &mut Work) -> Result<(), NoMemory>
    requires numbered { suc (length work.old.nodes) < 2 ^ 32 }
    requires room { vec_len work.old.added < 2 ^ 32 }
    ensures { OnOk result (seen_work work.new ≡ dispatch_rest (seen_work work.old)) }
{
    let nodes = work.len();
    if nodes < 2 {
        return Ok(());
    }
    dispatch(alloc, work)
}

/// Makes steps of Loop and Inline as long as one applies, at most this many, then at most as many
/// of these and of Exits, and the dispatch. Without memory some are done.
fn reduce(alloc: Global, state: &mut Reducing, most: usize) -> Result<(), NoMemory>
    requires holds { StateHolds state.old }
    requires numbered { suc (length state.old.work.nodes) < 2 ^ 32 }
    requires room { vec_len state.old.work.added + 2 * most < 2 ^ 32 }
    ensures { OnOk result (graph_in state.new
        ≡ dispatch_rest (reduced_by_all most (reduced most (graph_in state.old)))) }
{
    steps(alloc, state, most)?;
    all_steps(alloc, state, most)?;
    dispatch_rest(alloc, &mut state.work)
}

/// The graph that the rules have left.
fn ended(alloc: Global, state: Reducing) -> Result<Graph, NoMemory>
    ensures { IfOk result (λ graph. seen_graph graph ≡ graph_in state) }
{
    let Reducing {
        work,
        loops: _,
        inlines: _,
        exits: _,
    } = state;
    work.into_graph(alloc)
}

/// Makes all joins, and answers how many steps of the other rules are enough.
fn prepared(graph: &mut Graph) -> Result<usize, NoMemory>
    requires { length graph.old.nodes.items < 2 ^ 32 }
    ensures graph { OnOk result (seen_graph graph.new ≡ join_graph (seen_graph graph.old)) }
    ensures most { IfOk result (λ most. most ≡ 3 * size (seen_graph graph.old).nodes) }
{
    let most = enough_steps(graph);
    join_graph(graph)?;
    Ok(most)
}

/// Closes a graph by all rules in their order: one node is left, which doesn't jump. Without memory
/// the graph is lost.
pub fn close(alloc: Global, graph: Graph) -> Result<Graph, NoMemory>
    requires closed { IsClosed (seen_graph graph) }
    requires small { IsSmall (seen_graph graph) }
    ensures { IfOk result (λ new. seen_graph new ≡ closed_graph (seen_graph graph)) }
{
    let mut graph = graph;
    let most = match prepared(&mut graph) {
        Ok(most) => most,
        Err(fault) => {
            drop(graph);
            return Err(fault);
        }
    };
    let mut state = begun(alloc, graph)?;
    match reduce(alloc, &mut state, most) {
        Ok(()) => ended(alloc, state),
        Err(fault) => {
            drop(state);
            Err(fault)
        }
    }
}
