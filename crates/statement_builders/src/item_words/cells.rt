//! Statements on the items of cells.

ghost use Rattle.std.specs.Prelude.{IfOk};
ghost use Rattle.cob_base.specs.Answers.{Makes};
ghost use Rattle.control_flow_theory.specs.language.Language.{Set, Take, Lower};
ghost use Rattle.cobol_theory.specs.cell_serving.Entries.{whole_literal};
ghost use Rattle.cobol_theory.specs.cell_serving.Naming.{move_to, subtract_from};
ghost use Rattle.statement_builders.specs.item_words.Words.{IsItemOf, IsAct, subtract};

use crate::item_words::numbers::{item_place, number_operand, single};
use cob_base::{Items, NoMemory};
use cob_tree::{Arms, Calc, Operand, Stmt, Target};
use std::alloc::Global;

/// The item of a cell, by its place among the entries. Where the last arm of a choice by it is WHEN
/// OTHER, the choice has `most` arms.
#[derive(Clone, Copy)]
pub struct CellItem {
    pub item: u32,
    pub most: u32,
    pub ends_in_other: bool,
}

/// The item of the cell.
pub fn item_of(cells: &[CellItem], cell: u32) -> Result<CellItem, NoMemory>
    ensures { IfOk result (λ found. IsItemOf cells.now cell found) }
{
    match cells.get(cell as usize) {
        None => Err(NoMemory),
        Some(found) => {
            if found.item < 1 << 31 {
                Ok(*found)
            } else {
                Err(NoMemory)
            }
        }
    }
}

fn move_to(alloc: Global, item: u32, from: Operand) -> Result<Stmt, NoMemory>
    ensures { Makes (move_to item from) result }
{
    match single(alloc, item_place(alloc, item)) {
        Ok(to) => Ok(Stmt::Move { from, to }),
        Err(fault) => {
            drop(from);
            Err(fault)
        }
    }
}

fn subtract(alloc: Global, parts: Items<Operand>, item: u32) -> Result<Stmt, NoMemory>
    ensures { Makes (subtract item parts) result }
{
    let target = Target {
        place: item_place(alloc, item),
        rounded: false,
    };
    let arms = Arms {
        first: None,
        second: None,
    };
    match single(alloc, target) {
        Ok(into) => Ok(Stmt::Arith {
            calc: Calc::Subtract(parts),
            into,
            arms,
        }),
        Err(fault) => {
            drop(parts);
            drop(arms);
            Err(fault)
        }
    }
}

fn subtract_one(alloc: Global, item: u32) -> Result<Stmt, NoMemory>
    ensures { Makes (subtract_from item (whole_literal 1)) result }
{
    match number_operand(alloc, 1) {
        Ok(number) => match single(alloc, number) {
            Ok(parts) => subtract(alloc, parts, item),
            Err(fault) => Err(fault),
        },
        Err(fault) => Err(fault),
    }
}

/// MOVE the number TO the item.
pub fn set_cell(alloc: Global, cell: u32, value: u32, cells: &[CellItem]) -> Result<Stmt, NoMemory>
    ensures { IfOk result (λ made. IsAct cells.now (Set cell value) made) }
{
    let found = item_of(cells, cell)?;
    let number = number_operand(alloc, value)?;
    move_to(alloc, found.item, number)
}

/// MOVE the operand of TIMES TO the item.
pub fn take_cell(
    alloc: Global,
    cell: u32,
    amount: Operand,
    cells: &[CellItem],
) -> Result<Stmt, NoMemory>
    ensures { IfOk result (λ made. IsAct cells.now (Take cell amount) made) }
{
    match item_of(cells, cell) {
        Ok(found) => move_to(alloc, found.item, amount),
        Err(fault) => {
            drop(amount);
            Err(fault)
        }
    }
}

/// SUBTRACT 1 FROM the item.
pub fn lower_cell(alloc: Global, cell: u32, cells: &[CellItem]) -> Result<Stmt, NoMemory>
    ensures { IfOk result (λ made. IsAct cells.now (Lower cell) made) }
{
    let found = item_of(cells, cell)?;
    subtract_one(alloc, found.item)
}
