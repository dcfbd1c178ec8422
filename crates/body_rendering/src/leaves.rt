//! What is written for the leaves of a tree: within a loop a number for its cell, within a
//! statement STOP RUN alone.

ghost use Rattle.std.specs.Prelude.{suc, ◌≡◌, if◌then◌else◌, OnOk};
ghost use Rattle.cob_base.specs.Answers.{Makes};
ghost use Rattle.control_flow_theory.specs.language.Control.{seen_stmts};
ghost use Rattle.control_flow_theory.specs.graph_rules.Shapes.{followed, last_stmts};
ghost use Rattle.control_flow_theory.specs.semantics.Graph.{Stop};
ghost use Rattle.control_flow_theory.specs.structuring.Dispatches.{length_of, number_in, one_further, set_to};
ghost use Rattle.branch_tree.specs.Tree.{seen_end, jump_within, return_within};
ghost use Rattle.body_rendering.specs.Pieces.{AddsWords};

use branch_tree::{End, Label, Leaves};
use cob_base::{Items, NoMemory};
use cob_tree::Stmt;
use statement_builders::item_words::{CellItem, set_cell};
use std::alloc::Global;

/// The number of a label among labels, by whether it is the first, and by its number among those
/// after the first.
fn further(is_first: bool, number: u32) -> Result<u32, NoMemory>
    ensures { Makes (if is_first then 1 else one_further number) result }
{
    if is_first {
        Ok(1)
    } else if number == 0 {
        Ok(0)
    } else if number < u32::MAX {
        Ok(number + 1)
    } else {
        Err(NoMemory)
    }
}

/// The number of the label among labels, from 1; 0 where it isn't there.
fn number_in(labels: &[Label], label: Label) -> Result<u32, NoMemory>
    ensures { Makes (number_in labels.now label) result }
{
    let mut number = 0;
    let mut at = labels.len();
    while at > 0 {
        at -= 1;
        number = further(labels[at] == label, number)?;
    }
    Ok(number)
}

fn add_set(
    alloc: Global,
    made: &mut Items<Stmt>,
    cell: u32,
    value: u32,
    cells: &[CellItem],
) -> Result<(), NoMemory>
    ensures { OnOk result (AddsWords cells.now (set_to cell value) made.old made.new) }
{
    let stmt = set_cell(alloc, cell, value, cells)?;
    made.push(stmt)
}

fn add_number(
    alloc: Global,
    made: &mut Items<Stmt>,
    cell: u32,
    labels: &[Label],
    to: Label,
    cells: &[CellItem],
) -> Result<(), NoMemory>
    ensures { OnOk result
        (AddsWords cells.now (set_to cell (number_in labels.now to)) made.old made.new) }
{
    let number = number_in(labels, to)?;
    add_set(alloc, made, cell, number, cells)
}

/// Adds what a jump within a loop does.
pub fn add_jump(
    alloc: Global,
    made: &mut Items<Stmt>,
    leaves: &Leaves,
    to: Label,
    cells: &[CellItem],
) -> Result<(), NoMemory>
    ensures { OnOk result (AddsWords cells.now (jump_within leaves.now to) made.old made.new) }
{
    match leaves {
        Leaves::Silent => Ok(()),
        Leaves::Flag { cell, label } => {
            if to == *label {
                Ok(())
            } else {
                add_set(alloc, made, *cell, 1, cells)
            }
        }
        Leaves::Exit {
            cell,
            label,
            targets,
        } => {
            if to == *label {
                Ok(())
            } else {
                add_number(alloc, made, *cell, targets.as_slice(), to, cells)
            }
        }
        Leaves::State { cell, labels } => {
            add_number(alloc, made, *cell, labels.as_slice(), to, cells)
        }
    }
}

/// Adds what is set to the number after the last target.
fn add_past(
    alloc: Global,
    made: &mut Items<Stmt>,
    cell: u32,
    targets: &Items<Label>,
    cells: &[CellItem],
) -> Result<(), NoMemory>
    ensures { OnOk result
        (AddsWords cells.now (set_to cell (suc (length_of targets.now))) made.old made.new) }
{
    if targets.len() < u32::MAX as usize {
        add_set(alloc, made, cell, targets.len() as u32 + 1, cells)
    } else {
        Err(NoMemory)
    }
}

/// Adds what a return within a loop does.
pub fn add_return(
    alloc: Global,
    made: &mut Items<Stmt>,
    leaves: &Leaves,
    cells: &[CellItem],
) -> Result<(), NoMemory>
    ensures { OnOk result (AddsWords cells.now (return_within leaves.now) made.old made.new) }
{
    match leaves {
        Leaves::Silent => Ok(()),
        Leaves::Flag { cell, .. } => add_set(alloc, made, *cell, 1, cells),
        Leaves::Exit { cell, targets, .. } => add_past(alloc, made, *cell, targets, cells),
        Leaves::State { cell, .. } => add_set(alloc, made, *cell, 0, cells),
    }
}

/// Adds STOP RUN.
pub fn add_stop(made: &mut Items<Stmt>) -> Result<(), NoMemory>
    ensures { OnOk result
        (seen_stmts 0 made.new ≡ followed (seen_stmts 0 made.old) (last_stmts Stop)) }
{
    made.push(Stmt::StopRun)
}

/// Adds what is written for the leaf of an arm.
pub fn add_last(made: &mut Items<Stmt>, end: &End) -> Result<(), NoMemory>
    ensures { OnOk result
        (seen_stmts 0 made.new ≡ followed (seen_stmts 0 made.old) (last_stmts (seen_end end.now))) }
{
    match end {
        End::Pick { .. } => Ok(()),
        End::Jump(_) => Ok(()),
        End::Return => Ok(()),
        End::Stop => add_stop(made),
        End::Dead => Ok(()),
    }
}
