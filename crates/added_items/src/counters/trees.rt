//! Cells in trees.

ghost use Rattle.std.specs.Prelude.{◌≡◌, OnOk};
ghost use Rattle.control_flow_theory.specs.graph_rules.Reduced.{each_tree};
ghost use Rattle.control_flow_theory.specs.lowering.Renamed.{stmt_anew, stmts_anew, tree_anew, trees_anew};
ghost use Rattle.control_flow_theory.specs.main_theorem.Numbering.{place_among};
ghost use Rattle.branch_tree.specs.Graph.{seen_node, seen_nodes};
ghost use Rattle.branch_tree.specs.Tree.{seen_piece, seen_body, seen_tree, seen_trees};
ghost use Rattle.added_items.specs.counters.Anew.{NamesNoCell, node_anew};
ghost use Rattle.added_items.specs.counters.Counting.{Rises};

use crate::counters::cells::number_cell;
use crate::counters::parts::{number_leaves, number_picker, number_test};
use branch_tree::{End, Node, Piece, Tree, drop_trees};
use cob_base::{Items, NoMemory};
use program_facts::own_items::is_own_stmt;
use std::alloc::Global;
use std::mem;

/// Tests that a statement of the program names no cell, so that it stays however cells are
/// numbered. Err where it has a word on an added item.
fn own_piece(piece: &Piece) -> Result<(), NoMemory>
    ensures { OnOk result (NamesNoCell (seen_piece piece.now)) }
{
    match piece {
        Piece::Own(stmt) => {
            if is_own_stmt(stmt) {
                Ok(())
            } else {
                Err(NoMemory)
            }
        }
        _ => Err(NoMemory),
    }
}

/// Numbers the cells of a piece.
#[cycle(number)]
fn number_piece(alloc: Global, piece: &mut Piece, cells: &[u32]) -> Result<(), NoMemory>
    requires { Rises 0 cells.now }
    ensures { OnOk result (seen_piece piece.new
        ≡ stmt_anew (place_among cells.now) (seen_piece piece.old)) }
{
    match piece {
        Piece::Own(_) => own_piece(piece),
        Piece::Set { cell, .. } => number_cell(cell, cells),
        Piece::Take { cell, .. } => number_cell(cell, cells),
        Piece::Lower { cell } => number_cell(cell, cells),
        Piece::Choose { by, arms } => {
            number_picker(by, cells)?;
            number_arms(alloc, arms, cells)
        }
        Piece::Loop {
            test,
            leaves,
            body,
            ..
        } => {
            number_test(test, cells)?;
            number_leaves(leaves, cells)?;
            number_tree(alloc, body, cells)
        }
    }
}

#[cycle(number)]
fn number_pieces(alloc: Global, pieces: &mut [Piece], cells: &[u32]) -> Result<(), NoMemory>
    requires { Rises 0 cells.now }
    ensures { OnOk result (seen_body pieces.new
        ≡ stmts_anew (place_among cells.now) (seen_body pieces.old)) }
{
    for at in 0..pieces.len() {
        number_piece(alloc, &mut pieces[at], cells)?;
    }
    Ok(())
}

#[cycle(number)]
fn number_trees(alloc: Global, trees: &mut [Tree], cells: &[u32]) -> Result<(), NoMemory>
    requires { Rises 0 cells.now }
    ensures { OnOk result (seen_trees trees.new
        ≡ trees_anew (place_among cells.now) (seen_trees trees.old)) }
{
    for at in 0..trees.len() {
        number_tree(alloc, &mut trees[at], cells)?;
    }
    Ok(())
}

#[cycle(number)]
fn number_arms(alloc: Global, arms: &mut Items<Tree>, cells: &[u32]) -> Result<(), NoMemory>
    requires { Rises 0 cells.now }
    ensures { OnOk result (seen_trees arms.new
        ≡ trees_anew (place_among cells.now) (seen_trees arms.old)) }
{
    let mut trees = mem::replace(arms, Items::new(alloc)).into_vec();
    let done = number_trees(alloc, trees.as_mut_slice(), cells);
    drop_trees(mem::replace(arms, Items::from_vec(trees)));
    done
}

/// Numbers the cells of a tree. Err also where a statement or a condition of the program has a word
/// on an added item.
#[cycle(number)]
fn number_tree(alloc: Global, tree: &mut Tree, cells: &[u32]) -> Result<(), NoMemory>
    requires { Rises 0 cells.now }
    ensures { OnOk result (seen_tree tree.new
        ≡ tree_anew (place_among cells.now) (seen_tree tree.old)) }
{
    number_pieces(alloc, tree.body.make_contiguous(), cells)?;
    match &mut tree.end {
        End::Pick { by, arms } => {
            number_picker(by, cells)?;
            number_arms(alloc, arms, cells)
        }
        End::Jump(_) => Ok(()),
        End::Return => Ok(()),
        End::Stop => Ok(()),
        End::Dead => Ok(()),
    }
}

fn number_node(alloc: Global, node: &mut Node, cells: &[u32]) -> Result<(), NoMemory>
    requires { Rises 0 cells.now }
    ensures { OnOk result (seen_node node.new
        ≡ node_anew (place_among cells.now) (seen_node node.old)) }
{
    number_tree(alloc, &mut node.tree, cells)
}

/// Numbers the cells of all trees.
pub fn number_nodes(alloc: Global, nodes: &mut [Node], cells: &[u32]) -> Result<(), NoMemory>
    requires { Rises 0 cells.now }
    ensures { OnOk result (seen_nodes nodes.new
        ≡ each_tree (tree_anew (place_among cells.now)) (seen_nodes nodes.old)) }
{
    for at in 0..nodes.len() {
        number_node(alloc, &mut nodes[at], cells)?;
    }
    Ok(())
}
