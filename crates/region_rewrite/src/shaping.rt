//! A graph as one body.

ghost use Rattle.std.specs.Prelude.{◌≡◌, length, IfOk};
ghost use Rattle.control_flow_theory.specs.structuring.Closes.{IsClosed, closed_graph};
ghost use Rattle.control_flow_theory.specs.structuring.Laws.{PlainEnd};
ghost use Rattle.branch_tree.specs.Graph.{seen_graph};
ghost use Rattle.branch_tree.specs.Tree.{seen_end};
ghost use Rattle.region_rewrite.specs.Shaping.{IsSmall, Shapes, nesting_passed};

use crate::ordering::close;
use crate::written_nesting::body_nesting;
use branch_tree::{Added, End, Graph, Node, Piece};
use cob_base::limit::{MAX_NESTING, past};
use cob_base::{Limit, LimitKind};
use cob_tree::SplitFault;
use std::alloc::Global;
use std::collections::VecDeque;

/// What a graph becomes: a body, an end after which nothing comes, and the added items in the order
/// in which they were made.
#[derive(Drop)]
pub struct Shaped {
    pub body: VecDeque<Piece>,
    pub end: End,
    pub added: Vec<Added>,
}

fn nesting_passed() -> Limit
    ensures { result ≡ nesting_passed }
{
    past(LimitKind::Nesting, true, MAX_NESTING as u64 + 1)
}

/// What the one node of a graph holds, where it isn't nested too deep.
fn one_node(graph: Graph) -> Result<Shaped, SplitFault>
    requires { length graph.nodes.items ≡ 1 }
    ensures { Shapes result (seen_graph graph) }
{
    let Graph {
        entry: _,
        nodes,
        added,
    } = graph;
    let mut nodes = nodes;
    match nodes.pop() {
        None => unreachable!(),
        Some(node) => {
            let Node { label: _, tree } = node;
            let (body, end) = tree.into_parts();
            if body_nesting(&body) > MAX_NESTING {
                return Err(SplitFault::Limit(nesting_passed()));
            }
            Ok(Shaped { body, end, added })
        }
    }
}

/// Shapes a graph by all rules in their order. The errors are Limit, exactly where the result nests
/// deeper than 500 levels, and out of memory.
pub fn shape(alloc: Global, graph: Graph) -> Result<Shaped, SplitFault>
    requires closed { IsClosed (seen_graph graph) }
    requires small { IsSmall (seen_graph graph) }
    ensures shaped { Shapes result (closed_graph (seen_graph graph)) }
    ensures end { IfOk result (λ shaped. PlainEnd (seen_end shaped.end)) }
{
    match close(alloc, graph) {
        Ok(graph) => one_node(graph),
        Err(_) => Err(SplitFault::NoMemory),
    }
}
