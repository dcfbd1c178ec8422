//! Nodes that are added to those of a graph.

ghost use Rattle.std.specs.Prelude.{[], ◌∷◌, ◌++◌, ◌≡◌, OnOk};
ghost use Rattle.flow_graph.specs.Lowered.{node_with};

use branch_tree::{Label, Node, Tree};
use cob_base::NoMemory;

/// The label with this number.
fn label_at(number: u32) -> Label
    ensures { result ≡ number }
{
    Label {
        place: number / 3,
        part: (number % 3) as u8,
    }
}

/// Adds a node.
pub fn push_node(nodes: &mut Vec<Node>, number: u32, tree: Tree) -> Result<(), NoMemory>
    ensures { OnOk result (nodes.new.items ≡ nodes.old.items ++ node_with number tree ∷ []) }
{
    let node = Node {
        label: label_at(number),
        tree,
    };
    match nodes.push(node) {
        Ok(()) => Ok(()),
        Err(left) => {
            drop(left);
            Err(NoMemory)
        }
    }
}
