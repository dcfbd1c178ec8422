//! The counters of a graph, numbered.

ghost use Rattle.std.specs.Prelude.{◌≡◌, OnOk};
ghost use Rattle.branch_tree.specs.Graph.{seen_graph};
ghost use Rattle.added_items.specs.counters.Counting.{numbered_graph};
ghost use Rattle.added_items.specs.counters.Placed.{NumbersPlaced, ClosesPlaced};

use crate::counters::counting::{counters_in, counts};
use crate::counters::trees::number_nodes;
use branch_tree::Graph;
use cob_base::NoMemory;
use std::alloc::Global;

/// Numbers the counters of any graph.
fn number_graph(alloc: Global, graph: &mut Graph) -> Result<(), NoMemory>
    ensures { OnOk result (seen_graph graph.new ≡ numbered_graph (seen_graph graph.old)) }
{
    let cells = counters_in(alloc, &graph.nodes)?;
    let added = counts(alloc, &cells)?;
    number_nodes(alloc, graph.nodes.as_mut_slice(), &cells)?;
    graph.added = added;
    Ok(())
}

/// Numbers the counters of a graph's loops by TIMES from 0, in the order of their heads, and makes
/// each an added item. Without memory the cells of some nodes are numbered. A cell whose number
/// needs more than 32 bits is out of memory, and so is a part of the program that has a word on an
/// added item.
pub fn number_counters(alloc: Global, graph: &mut Graph) -> Result<(), NoMemory>
    ensures numbered { OnOk result (seen_graph graph.new
        ≡ numbered_graph (seen_graph graph.old)) }
    ensures placed { OnOk result (NumbersPlaced (seen_graph graph.old) (seen_graph graph.new)) }
    ensures closed { OnOk result (ClosesPlaced (seen_graph graph.old) (seen_graph graph.new)) }
{
    number_graph(alloc, graph)
}
