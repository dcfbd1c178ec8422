//! Choices of a tree as statements, from the lists that their arms hold.

ghost use Rattle.std.specs.Prelude.{◌≡◌, [], ◌∷◌, Some, map, IfOk};
ghost use Rattle.branch_tree.specs.declared.chooser.Picker.TheVariants as pickers;
ghost use Rattle.branch_tree.specs.declared.chooser.Chooser.TheVariants as choosers;
ghost use Rattle.control_flow_theory.specs.language.Control.{seen_stmts};
ghost use Rattle.statement_builders.specs.item_words.Lists.{IsAmongAll, IsNumbered, IsNumberedAll, IsItemChoice, IsOwnChoice, IsChosen};

use crate::arms::{arith_stmt, if_stmt, read_stmt};
use crate::item_words::cells::{CellItem, item_of};
use crate::item_words::numbers::{item_side, place_side, tests_to};
use crate::item_words::tests::written_test;
use crate::item_words::whens::among;
use branch_tree::{Chooser, Picker, Test};
use cob_base::{Items, NoMemory};
use cob_tree::{Calc, Expr, Place, Stmt, Subject, Target, Test as WhenTest};
use std::alloc::Global;

/// The lists of two arms.
#[derive(Drop)]
pub struct BothArms {
    pub first: Items<Stmt>,
    pub second: Items<Stmt>,
}

fn two_of(first: Option<Items<Stmt>>, second: Option<Items<Stmt>>) -> Result<BothArms, NoMemory>
    ensures { IfOk result (λ two. (first ≡ Some two.first) × (second ≡ Some two.second)) }
{
    match first {
        Some(first) => match second {
            Some(second) => Ok(BothArms { first, second }),
            None => {
                drop(first);
                Err(NoMemory)
            }
        },
        None => {
            drop(second);
            Err(NoMemory)
        }
    }
}

fn two_arms(arms: Vec<Items<Stmt>>) -> Result<BothArms, NoMemory>
    ensures { IfOk result (λ two. arms.items ≡ two.first ∷ two.second ∷ []) }
{
    let mut arms = arms;
    if arms.len() == 2 {
        let second = arms.pop();
        let first = arms.pop();
        drop(arms);
        two_of(first, second)
    } else {
        drop(arms);
        Err(NoMemory)
    }
}

fn choose_if(
    alloc: Global,
    test: Test,
    arms: Vec<Items<Stmt>>,
    cells: &[CellItem],
) -> Result<Stmt, NoMemory>
    ensures { IfOk result (λ made. IsChosen cells.now (pickers.If test) arms.items made) }
{
    match written_test(alloc, test, false, cells) {
        Ok(cond) => match two_arms(arms) {
            Ok(BothArms { first, second }) => if_stmt(cond, first, second),
            Err(fault) => {
                drop(cond);
                Err(fault)
            }
        },
        Err(fault) => {
            drop(arms);
            Err(fault)
        }
    }
}

fn choose_read(
    file: u32,
    into: Option<Place>,
    has_end: bool,
    arms: Vec<Items<Stmt>>,
) -> Result<Stmt, NoMemory>
    ensures { IfOk result
        (λ made. IsOwnChoice (choosers.Read file into has_end) arms.items made) }
{
    match two_arms(arms) {
        Ok(BothArms { first, second }) => read_stmt(file, into, first, second, has_end),
        Err(fault) => {
            drop(into);
            Err(fault)
        }
    }
}

fn choose_arith(calc: Calc, into: Items<Target>, arms: Vec<Items<Stmt>>) -> Result<Stmt, NoMemory>
    ensures { IfOk result (λ made. IsOwnChoice (choosers.Arith calc into) arms.items made) }
{
    match two_arms(arms) {
        Ok(BothArms { first, second }) => arith_stmt(calc, into, first, second, true),
        Err(fault) => {
            drop(calc);
            drop(into);
            Err(fault)
        }
    }
}

/// EVALUATE of arms, the last of which is WHEN OTHER.
fn among_all(
    alloc: Global,
    subject: Subject,
    tests: &[Items<WhenTest>],
    arms: Vec<Items<Stmt>>,
    has_other: bool,
) -> Result<Stmt, NoMemory>
    ensures { IfOk result (λ made. IsAmongAll subject tests.now (map (seen_stmts 0) arms.items)
        has_other made) }
{
    let mut arms = arms;
    match arms.pop() {
        Some(other) => among(alloc, subject, tests, arms, other, has_other),
        None => {
            drop(subject);
            drop(arms);
            Err(NoMemory)
        }
    }
}

fn choose_evaluate(
    alloc: Global,
    subject: Subject,
    tests: Items<Items<WhenTest>>,
    has_other: bool,
    arms: Vec<Items<Stmt>>,
) -> Result<Stmt, NoMemory>
    ensures { IfOk result
        (λ made. IsOwnChoice (choosers.Evaluate subject tests has_other) arms.items made) }
{
    let made = among_all(alloc, subject, tests.as_slice(), arms, has_other);
    drop(tests);
    made
}

/// EVALUATE with a WHEN for each number from 1, and with a WHEN OTHER that no source has.
fn choose_numbered(
    alloc: Global,
    side: Expr,
    whens: u32,
    arms: Vec<Items<Stmt>>,
) -> Result<Stmt, NoMemory>
    ensures { IfOk result (λ made. IsNumberedAll side whens (map (seen_stmts 0) arms.items) made) }
{
    match tests_to(alloc, whens) {
        Ok(tests) => {
            let made = among_all(alloc, Subject::Value(side), tests.as_slice(), arms, false);
            drop(tests);
            made
        }
        Err(fault) => {
            drop(side);
            drop(arms);
            Err(fault)
        }
    }
}

fn choose_depending(
    alloc: Global,
    on: Place,
    names: u32,
    arms: Vec<Items<Stmt>>,
) -> Result<Stmt, NoMemory>
    ensures { IfOk result (λ made. IsOwnChoice (choosers.Depending on names) arms.items made) }
{
    choose_numbered(alloc, place_side(on), names, arms)
}

fn choose_by(alloc: Global, chooser: Chooser, arms: Vec<Items<Stmt>>) -> Result<Stmt, NoMemory>
    ensures { IfOk result (λ made. IsOwnChoice chooser arms.items made) }
{
    match chooser {
        Chooser::Evaluate {
            subject,
            tests,
            has_other,
        } => choose_evaluate(alloc, subject, tests, has_other, arms),
        Chooser::Read {
            file,
            into,
            has_end,
        } => choose_read(file, into, has_end, arms),
        Chooser::Arith { calc, into } => choose_arith(calc, into, arms),
        Chooser::Depending { on, names } => choose_depending(alloc, on, names, arms),
    }
}

/// EVALUATE with a WHEN for each number from 1, one for each arm.
fn choose_tested(alloc: Global, side: Expr, arms: Vec<Items<Stmt>>) -> Result<Stmt, NoMemory>
    ensures { IfOk result (λ made. IsNumbered side (map (seen_stmts 0) arms.items) made) }
{
    if arms.len() > u32::MAX as usize {
        drop(side);
        drop(arms);
        return Err(NoMemory);
    }
    match tests_to(alloc, arms.len() as u32) {
        Ok(tests) => {
            let other = Items::new(alloc);
            let subject = Subject::Value(side);
            let made = among(alloc, subject, tests.as_slice(), arms, other, false);
            drop(tests);
            made
        }
        Err(fault) => {
            drop(side);
            drop(arms);
            Err(fault)
        }
    }
}

fn choose_item(alloc: Global, cell: CellItem, arms: Vec<Items<Stmt>>) -> Result<Stmt, NoMemory>
    ensures { IfOk result (λ made. IsItemChoice cell arms.items made) }
{
    let side = item_side(alloc, cell.item);
    if cell.ends_in_other {
        if cell.most > 0 {
            choose_numbered(alloc, side, cell.most - 1, arms)
        } else {
            drop(side);
            drop(arms);
            Err(NoMemory)
        }
    } else {
        choose_tested(alloc, side, arms)
    }
}

fn choose_cell(
    alloc: Global,
    cell: u32,
    arms: Vec<Items<Stmt>>,
    cells: &[CellItem],
) -> Result<Stmt, NoMemory>
    ensures { IfOk result (λ made. IsChosen cells.now (pickers.ByCell cell) arms.items made) }
{
    match item_of(cells, cell) {
        Ok(found) => choose_item(alloc, found, arms),
        Err(fault) => {
            drop(arms);
            Err(fault)
        }
    }
}

/// The choice over the lists of its arms. Err where memory runs out, where it has other arms than
/// such a choice, and where a word of the program's own is on an added item.
pub fn choose(
    alloc: Global,
    by: Picker,
    arms: Items<Items<Stmt>>,
    cells: &[CellItem],
) -> Result<Stmt, NoMemory>
    ensures { IfOk result (λ made. IsChosen cells.now by arms made) }
{
    let arms = arms.into_vec();
    match by {
        Picker::If(test) => choose_if(alloc, test, arms, cells),
        Picker::By(chooser) => choose_by(alloc, chooser, arms),
        Picker::ByCell { cell } => choose_cell(alloc, cell, arms, cells),
    }
}

/// Drops statements.
pub fn drop_stmts(_stmts: Items<Stmt>) {}

/// Drops lists of statements.
pub fn drop_lists(_lists: Items<Items<Stmt>>) {}
