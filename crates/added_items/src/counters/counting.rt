//! The counters of a graph's loops.

ghost use Rattle.std.specs.Prelude.{◌≡◌, IfOk, map};
ghost use Rattle.control_flow_theory.specs.main_theorem.Numbering.{counts};
ghost use Rattle.branch_tree.specs.Choosers.{seen_test, seen_picker};
ghost use Rattle.branch_tree.specs.Graph.{seen_added, seen_node, seen_nodes};
ghost use Rattle.branch_tree.specs.Tree.{seen_end};
ghost use Rattle.added_items.specs.counters.Counting.{tested_cell, picked_cell, ended_cell, head_cell, counter_at, counters_in};

use branch_tree::{Added, End, Node, Picker, Test};
use cob_base::NoMemory;
use program_facts::own_items::is_own_test;
use std::alloc::Global;

/// The cell of a test whether a cell is above zero; none for any other test. Err where a condition
/// of the program has a word on an added item.
fn tested_cell(test: &Test) -> Result<Option<u32>, NoMemory>
    ensures { IfOk result (λ cell. cell ≡ tested_cell (seen_test test.now)) }
{
    match test {
        Test::Holds(cond) => {
            if is_own_test(cond) {
                Ok(None)
            } else {
                Err(NoMemory)
            }
        }
        Test::Is { .. } => Ok(None),
        Test::Above { cell } => Ok(Some(*cell)),
    }
}

fn picked_cell(by: &Picker) -> Result<Option<u32>, NoMemory>
    ensures { IfOk result (λ cell. cell ≡ picked_cell (seen_picker by.now)) }
{
    match by {
        Picker::If(test) => tested_cell(test),
        Picker::By(_) => Ok(None),
        Picker::ByCell { .. } => Ok(None),
    }
}

fn ended_cell(end: &End) -> Result<Option<u32>, NoMemory>
    ensures { IfOk result (λ cell. cell ≡ ended_cell (seen_end end.now)) }
{
    match end {
        End::Pick { by, .. } => picked_cell(by),
        End::Jump(_) => Ok(None),
        End::Return => Ok(None),
        End::Stop => Ok(None),
        End::Dead => Ok(None),
    }
}

/// The counter of the loop whose head the node is.
fn head_cell(node: &Node) -> Result<Option<u32>, NoMemory>
    ensures { IfOk result (λ cell. cell ≡ head_cell (seen_node node.now)) }
{
    match ended_cell(&node.tree.end)? {
        Some(cell) => {
            if node.label.number() == 3 * cell as u64 + 1 {
                Ok(Some(cell))
            } else {
                Ok(None)
            }
        }
        None => Ok(None),
    }
}

/// The counter of the loop whose head the node is, where it isn't below the number.
fn counter_at(node: &Node, least: u64) -> Result<Option<u32>, NoMemory>
    ensures { IfOk result (λ cell. cell ≡ counter_at least (seen_node node.now)) }
{
    match head_cell(node)? {
        Some(cell) => {
            if least <= cell as u64 {
                Ok(Some(cell))
            } else {
                Ok(None)
            }
        }
        None => Ok(None),
    }
}

/// The counters of the loops whose heads are among the nodes, in ascending order; one that isn't
/// above those before it is left out.
pub fn counters_in(alloc: Global, nodes: &[Node]) -> Result<Vec<u32>, NoMemory>
    ensures { IfOk result (λ cells. cells.items ≡ counters_in (seen_nodes nodes.now)) }
{
    let mut cells = Vec::new(alloc);
    let mut least = 0u64;
    for node in nodes {
        match counter_at(node, least)? {
            Some(cell) => {
                cells.push(cell)?;
                least = cell as u64 + 1;
            }
            None => {}
        }
    }
    Ok(cells)
}

/// An added item of kind Count for each cell.
pub fn counts(alloc: Global, cells: &[u32]) -> Result<Vec<Added>, NoMemory>
    ensures { IfOk result (λ added. map seen_added added.items ≡ counts cells.now) }
{
    let mut added = Vec::new(alloc);
    for _cell in cells {
        added.push(Added::Count)?;
    }
    Ok(added)
}
