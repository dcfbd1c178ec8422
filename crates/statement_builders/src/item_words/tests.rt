//! Tests of cells, and of the program's own conditions.

ghost use Rattle.std.specs.Prelude.{◌≡◌, false, IfOk};
ghost use Rattle.control_flow_theory.specs.language.Control.{seen_stmts, test_of};
ghost use Rattle.control_flow_theory.specs.language.Own.{OwnTest};
ghost use Rattle.statement_builders.specs.item_words.Words.{IsCellTest, IsLoop, IsTest};

use crate::arms::or_continue;
use crate::item_words::cells::{CellItem, item_of};
use crate::item_words::numbers::relation;
use branch_tree::Test;
use cob_base::{Boxed, Items, NoMemory};
use cob_tree::{Cond, Control, Rel, Stmt};
use program_facts::own_items::is_own_test;
use std::alloc::Global;

fn own_cond(cond: Cond) -> Result<Cond, NoMemory>
    ensures { IfOk result (λ made. (made ≡ cond) × OwnTest (test_of cond)) }
{
    if is_own_test(&cond) {
        Ok(cond)
    } else {
        drop(cond);
        Err(NoMemory)
    }
}

fn cell_test(
    alloc: Global,
    cell: u32,
    rel: Rel,
    value: u32,
    cells: &[CellItem],
) -> Result<Cond, NoMemory>
    ensures { IfOk result (λ made. IsCellTest cells.now cell rel value made) }
{
    let found = item_of(cells, cell)?;
    relation(alloc, found.item, rel, value)
}

fn bare_test(alloc: Global, test: Test, cells: &[CellItem]) -> Result<Cond, NoMemory>
    ensures { IfOk result (λ made. IsTest cells.now false test made) }
{
    match test {
        Test::Holds(cond) => own_cond(cond),
        Test::Is { cell, value } => cell_test(alloc, cell, Rel::Equal, value, cells),
        Test::Above { cell } => cell_test(alloc, cell, Rel::Greater, 0, cells),
    }
}

/// The test as a condition, negated where it is turned.
pub fn written_test(
    alloc: Global,
    test: Test,
    turned: bool,
    cells: &[CellItem],
) -> Result<Cond, NoMemory>
    ensures { IfOk result (λ made. IsTest cells.now turned test made) }
{
    let cond = bare_test(alloc, test, cells)?;
    if turned {
        let inner = Boxed::new(alloc, cond)?;
        Ok(Cond::Not(inner))
    } else {
        Ok(cond)
    }
}

/// PERFORM of the statements UNTIL the test, or UNTIL NOT the test where it is turned.
pub fn loop_until(
    alloc: Global,
    test: Test,
    turned: bool,
    after: bool,
    body: Items<Stmt>,
    cells: &[CellItem],
) -> Result<Stmt, NoMemory>
    ensures { IfOk result
        (λ made. IsLoop cells.now turned test after (seen_stmts 0 body) made) }
{
    match or_continue(body) {
        Ok(body) => match written_test(alloc, test, turned, cells) {
            Ok(cond) => {
                let control = Control::Until { after, cond };
                Ok(Stmt::Loop { control, body })
            }
            Err(fault) => {
                drop(body);
                Err(fault)
            }
        },
        Err(fault) => {
            drop(test);
            Err(fault)
        }
    }
}
