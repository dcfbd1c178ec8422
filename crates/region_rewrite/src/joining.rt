//! Makes all joins of a graph.

ghost use Rattle.std.specs.Prelude.{◌≡◌, ◌<◌, ◌*◌, ◌^◌, length, OnOk};
ghost use Rattle.control_flow_theory.specs.graph_rules.Reduced.{each_tree, join_graph, size};
ghost use Rattle.control_flow_theory.specs.graph_rules.Shapes.{joined};
ghost use Rattle.branch_tree.specs.Graph.{seen_graph, seen_nodes};

use branch_tree::{Graph, Node};
use cob_base::NoMemory;
use tree_rules::join;

fn join_nodes(nodes: &mut [Node]) -> Result<(), NoMemory>
    ensures { OnOk result (seen_nodes nodes.new ≡ each_tree joined (seen_nodes nodes.old)) }
{
    for at in 0..nodes.len() {
        join(&mut nodes[at].tree)?;
    }
    Ok(())
}

/// Makes all joins of a graph.
pub fn join_graph(graph: &mut Graph) -> Result<(), NoMemory>
    ensures { OnOk result (seen_graph graph.new ≡ join_graph (seen_graph graph.old)) }
{
    join_nodes(graph.nodes.as_mut_slice())
}

/// As many steps as are enough, three for each node.
pub fn enough_steps(graph: &Graph) -> usize
    requires { length graph.now.nodes.items < 2 ^ 32 }
    ensures { result ≡ 3 * size (seen_nodes graph.now.nodes.items) }
{
    let nodes = graph.nodes.len();
    3 * nodes
}
