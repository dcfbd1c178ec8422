//! What the graphs of ranges are shaped to.

ghost use Rattle.std.specs.Prelude.{OnOk, MatchResult};
ghost use Rattle.procedure_split.specs.shaped_ranges.Shaping.{AddsClosed, AllReady, AllShaped, IsTooDeep};

use branch_tree::{Added, Graph, Tree};
use cob_base::NoMemory;
use cob_tree::SplitFault;
use region_rewrite::{Shaped, shape};
use std::alloc::Global;

/// What a range is shaped to: its body before its end, and its added items in the order in which
/// they were made.
#[derive(Drop)]
pub struct Closed {
    pub tree: Tree,
    pub added: Vec<Added>,
}

/// Adds what was shaped.
fn push_closed(made: &mut Vec<Closed>, shaped: Shaped) -> Result<(), NoMemory>
    ensures { OnOk result (AddsClosed shaped made.old.items made.new.items) }
{
    let Shaped { body, end, added } = shaped;
    let tree = Tree { body, end };
    match made.push(Closed { tree, added }) {
        Ok(()) => Ok(()),
        Err(left) => {
            drop(left);
            Err(NoMemory)
        }
    }
}

/// What the graphs are shaped to, in their order. The errors are Limit, exactly where one of them
/// nests deeper than 500 levels, and out of memory.
pub fn shape_all(alloc: Global, graphs: Vec<Graph>) -> Result<Vec<Closed>, SplitFault>
    requires { AllReady graphs.items }
    ensures { MatchResult result (λ closed. AllShaped graphs.items closed.items)
        (λ fault. IsTooDeep graphs.items fault) }
{
    let mut left = graphs;
    let mut made = Vec::new(alloc);
    left.as_mut_slice().reverse();
    while let Some(graph) = left.pop() {
        match shape(alloc, graph) {
            Err(fault) => {
                drop(left);
                drop(made);
                return Err(fault);
            }
            Ok(shaped) => match push_closed(&mut made, shaped) {
                Ok(()) => {}
                Err(_) => {
                    drop(left);
                    drop(made);
                    return Err(SplitFault::NoMemory);
                }
            },
        }
    }
    Ok(made)
}
