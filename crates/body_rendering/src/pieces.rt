//! Pieces and trees as statements.

ghost use Rattle.std.specs.Prelude.{IfOk, OnOk};
ghost use Rattle.control_flow_theory.specs.language.Language.{Choose};
ghost use Rattle.control_flow_theory.specs.graph_rules.Shapes.{alone, arms_stmts};
ghost use Rattle.branch_tree.specs.Choosers.{seen_picker};
ghost use Rattle.branch_tree.specs.Tree.{seen_piece, seen_body, seen_trees};
ghost use Rattle.body_rendering.specs.Pieces.{IsMade, AreMade, AddsStmts, AddsLists, within_arm, within_loop, end_stmts, stated_choice};

use crate::leaves::{add_jump, add_last, add_return, add_stop};
use crate::own_statements::write_stmt;
use branch_tree::{End, Leaves, Picker, Piece, Tree, drop_trees};
use cob_base::{Items, NoMemory};
use cob_tree::Stmt;
use statement_builders::arms::ProcedurePlace;
use statement_builders::item_words::{
    CellItem, choose, drop_lists, drop_stmts, loop_until, lower_cell, set_cell, take_cell,
};
use std::alloc::Global;
use std::mem;

/// Writes a piece, which is taken out of its place.
#[cycle(write)]
fn write_piece(
    alloc: Global,
    piece: &mut Piece,
    cells: &[CellItem],
    places: &[ProcedurePlace],
) -> Result<Stmt, NoMemory>
    ensures { IfOk result (λ made. IsMade cells.now places.now (seen_piece piece.old) made) }
{
    match mem::replace(piece, Piece::Lower { cell: 0 }) {
        Piece::Own(stmt) => write_stmt(alloc, stmt, places),
        Piece::Set { cell, value } => set_cell(alloc, cell, value, cells),
        Piece::Take { cell, amount } => take_cell(alloc, cell, amount, cells),
        Piece::Lower { cell } => lower_cell(alloc, cell, cells),
        Piece::Choose { by, arms } => write_choice(alloc, by, arms, cells, places),
        Piece::Loop {
            after,
            turned,
            test,
            leaves,
            body,
        } => match write_turns(alloc, body, leaves, cells, places) {
            Ok(body) => loop_until(alloc, test, turned, after, body, cells),
            Err(fault) => {
                drop(test);
                Err(fault)
            }
        },
    }
}

#[cycle(write)]
fn add_pieces(
    alloc: Global,
    pieces: &mut [Piece],
    made: &mut Items<Stmt>,
    cells: &[CellItem],
    places: &[ProcedurePlace],
) -> Result<(), NoMemory>
    ensures { OnOk result
        (AddsStmts cells.now places.now (seen_body pieces.old) made.old made.new) }
{
    for at in 0..pieces.len() {
        let stmt = write_piece(alloc, &mut pieces[at], cells, places)?;
        made.push(stmt)?;
    }
    Ok(())
}

/// Adds the statements of a body.
#[cycle(write)]
fn add_arm(
    alloc: Global,
    arm: &mut Tree,
    made: &mut Items<Stmt>,
    cells: &[CellItem],
    places: &[ProcedurePlace],
) -> Result<(), NoMemory>
    ensures { OnOk result (AddsStmts cells.now places.now (within_arm arm.old) made.old made.new) }
{
    add_pieces(alloc, arm.body.make_contiguous(), made, cells, places)?;
    add_last(made, &arm.end)
}

/// An arm of a choice that is a statement.
#[cycle(write)]
fn write_arm(
    alloc: Global,
    arm: &mut Tree,
    cells: &[CellItem],
    places: &[ProcedurePlace],
) -> Result<Items<Stmt>, NoMemory>
    ensures { IfOk result (λ made. AreMade cells.now places.now (within_arm arm.old) made) }
{
    let mut made = Items::new(alloc);
    match add_arm(alloc, arm, &mut made, cells, places) {
        Ok(()) => Ok(made),
        Err(fault) => {
            drop_stmts(made);
            Err(fault)
        }
    }
}

#[cycle(write)]
fn add_arms(
    alloc: Global,
    lists: &mut Items<Items<Stmt>>,
    arms: &mut [Tree],
    cells: &[CellItem],
    places: &[ProcedurePlace],
) -> Result<(), NoMemory>
    ensures { OnOk result
        (AddsLists cells.now places.now within_arm arms.old lists.old lists.new) }
{
    for at in 0..arms.len() {
        let made = write_arm(alloc, &mut arms[at], cells, places)?;
        lists.push(made)?;
    }
    Ok(())
}

/// A choice whose arms end in leaves.
#[cycle(write)]
fn write_choice(
    alloc: Global,
    by: Picker,
    arms: Items<Tree>,
    cells: &[CellItem],
    places: &[ProcedurePlace],
) -> Result<Stmt, NoMemory>
    ensures { IfOk result (λ made. IsMade cells.now places.now
        (Choose (seen_picker by) (arms_stmts (seen_trees arms))) made) }
{
    let mut arms = arms.into_vec();
    let mut lists = Items::new(alloc);
    match add_arms(alloc, &mut lists, arms.as_mut_slice(), cells, places) {
        Ok(()) => {
            drop_trees(Items::from_vec(arms));
            choose(alloc, by, lists, cells)
        }
        Err(fault) => {
            drop_trees(Items::from_vec(arms));
            drop(by);
            drop_lists(lists);
            Err(fault)
        }
    }
}

/// Adds the statements of a tree within a loop with such leaves.
#[cycle(write)]
fn add_stated(
    alloc: Global,
    tree: &mut Tree,
    made: &mut Items<Stmt>,
    leaves: &Leaves,
    cells: &[CellItem],
    places: &[ProcedurePlace],
) -> Result<(), NoMemory>
    ensures { OnOk result
        (AddsStmts cells.now places.now (within_loop leaves.now tree.old) made.old made.new) }
{
    add_pieces(alloc, tree.body.make_contiguous(), made, cells, places)?;
    add_end(alloc, &mut tree.end, made, leaves, cells, places)
}

#[cycle(write)]
fn write_stated(
    alloc: Global,
    tree: &mut Tree,
    leaves: &Leaves,
    cells: &[CellItem],
    places: &[ProcedurePlace],
) -> Result<Items<Stmt>, NoMemory>
    ensures { IfOk result
        (λ made. AreMade cells.now places.now (within_loop leaves.now tree.old) made) }
{
    let mut made = Items::new(alloc);
    match add_stated(alloc, tree, &mut made, leaves, cells, places) {
        Ok(()) => Ok(made),
        Err(fault) => {
            drop_stmts(made);
            Err(fault)
        }
    }
}

/// The statements of a loop's tree.
#[cycle(write)]
fn write_turns(
    alloc: Global,
    tree: Tree,
    leaves: Leaves,
    cells: &[CellItem],
    places: &[ProcedurePlace],
) -> Result<Items<Stmt>, NoMemory>
    ensures { IfOk result (λ made. AreMade cells.now places.now (within_loop leaves tree) made) }
{
    let mut tree = tree;
    let made = write_stated(alloc, &mut tree, &leaves, cells, places);
    drop_tree(tree);
    drop(leaves);
    made
}

/// Adds what is written for an end, which is taken out of its place.
#[cycle(write)]
fn add_end(
    alloc: Global,
    end: &mut End,
    made: &mut Items<Stmt>,
    leaves: &Leaves,
    cells: &[CellItem],
    places: &[ProcedurePlace],
) -> Result<(), NoMemory>
    ensures { OnOk result
        (AddsStmts cells.now places.now (end_stmts leaves.now end.old) made.old made.new) }
{
    match mem::replace(end, End::Dead) {
        End::Pick { by, arms } => add_choice(alloc, by, arms, made, leaves, cells, places),
        End::Jump(to) => add_jump(alloc, made, leaves, to, cells),
        End::Return => add_return(alloc, made, leaves, cells),
        End::Stop => add_stop(made),
        End::Dead => Ok(()),
    }
}

/// Adds a choice whose arms are trees within a loop.
#[cycle(write)]
fn add_choice(
    alloc: Global,
    by: Picker,
    arms: Items<Tree>,
    made: &mut Items<Stmt>,
    leaves: &Leaves,
    cells: &[CellItem],
    places: &[ProcedurePlace],
) -> Result<(), NoMemory>
    ensures { OnOk result (AddsStmts cells.now places.now
        (alone (stated_choice leaves.now by arms)) made.old made.new) }
{
    let stmt = write_stated_choice(alloc, by, arms, leaves, cells, places)?;
    made.push(stmt)
}

#[cycle(write)]
fn write_stated_choice(
    alloc: Global,
    by: Picker,
    arms: Items<Tree>,
    leaves: &Leaves,
    cells: &[CellItem],
    places: &[ProcedurePlace],
) -> Result<Stmt, NoMemory>
    ensures { IfOk result
        (λ made. IsMade cells.now places.now (stated_choice leaves.now by arms) made) }
{
    let mut arms = arms.into_vec();
    let mut lists = Items::new(alloc);
    match add_stated_arms(
        alloc,
        &mut lists,
        arms.as_mut_slice(),
        leaves,
        cells,
        places,
    ) {
        Ok(()) => {
            drop_trees(Items::from_vec(arms));
            choose(alloc, by, lists, cells)
        }
        Err(fault) => {
            drop_trees(Items::from_vec(arms));
            drop(by);
            drop_lists(lists);
            Err(fault)
        }
    }
}

#[cycle(write)]
fn add_stated_arms(
    alloc: Global,
    lists: &mut Items<Items<Stmt>>,
    arms: &mut [Tree],
    leaves: &Leaves,
    cells: &[CellItem],
    places: &[ProcedurePlace],
) -> Result<(), NoMemory>
    ensures { OnOk result
        (AddsLists cells.now places.now (within_loop leaves.now) arms.old lists.old lists.new) }
{
    for at in 0..arms.len() {
        let made = write_stated(alloc, &mut arms[at], leaves, cells, places)?;
        lists.push(made)?;
    }
    Ok(())
}

/// Drops a tree.
pub fn drop_tree(_tree: Tree) {}

/// Adds the statements of a body after others.
pub fn add_body(
    alloc: Global,
    made: &mut Items<Stmt>,
    pieces: &mut [Piece],
    cells: &[CellItem],
    places: &[ProcedurePlace],
) -> Result<(), NoMemory>
    ensures { OnOk result
        (AddsStmts cells.now places.now (seen_body pieces.old) made.old made.new) }
{
    add_pieces(alloc, pieces, made, cells, places)
}
