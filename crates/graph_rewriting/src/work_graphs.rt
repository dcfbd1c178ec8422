//! Graphs before and after they are rewritten.

ghost use Rattle.std.specs.Prelude.{◌≡◌, IfOk};
ghost use Rattle.control_flow_theory.specs.structuring.Closes.{IsClosed};
ghost use Rattle.branch_tree.specs.Graph.{seen_graph};
ghost use Rattle.graph_rewriting.specs.Helds.{seen_work};

use crate::drops::drop_slots;
use crate::filling::{empty_slots, fill, nodes_out, none_full};
use crate::work::Work;
use branch_tree::{Graph, drop_nodes};
use cob_base::NoMemory;
use slab::Slab;
use std::alloc::Global;
use std::collections::BTreeMap;

impl Work {
    /// The graph, to be rewritten. Out of memory also where 2^32 - 1 of its leaves jump to one
    /// label: they are counted in 32 bits.
    pub fn from_graph(alloc: Global, graph: Graph) -> Result<Work, NoMemory>
        requires { IsClosed (seen_graph graph) }
        ensures { IfOk result (λ work. seen_work work ≡ seen_graph graph) }
    {
        let Graph {
            entry,
            nodes,
            added,
        } = graph;
        let mut keys = BTreeMap::new(alloc);
        let mut slots = Slab::new(alloc);
        match empty_slots(alloc, &nodes, &mut keys, &mut slots) {
            Err(_) => {
                drop_nodes(nodes);
                drop_slots(slots);
                Err(NoMemory)
            }
            Ok(()) => {
                fill(&keys, &mut slots, nodes);
                if none_full(&keys, &slots) {
                    Ok(Work {
                        slots,
                        keys,
                        entry,
                        added,
                    })
                } else {
                    drop_slots(slots);
                    Err(NoMemory)
                }
            }
        }
    }

    /// The graph as it was rewritten.
    pub fn into_graph(self, alloc: Global) -> Result<Graph, NoMemory>
        ensures { IfOk result (λ graph. seen_graph graph ≡ seen_work self) }
    {
        let Work {
            slots,
            keys,
            entry,
            added,
        } = self;
        match nodes_out(alloc, keys, slots) {
            Err(_) => Err(NoMemory),
            Ok(nodes) => Ok(Graph {
                entry,
                nodes,
                added,
            }),
        }
    }
}
