//! The one sentence of a procedure.

ghost use Rattle.std.specs.Prelude.{◌≡◌, ◌||◌, IfOk, OnOk};
ghost use Rattle.control_flow_theory.specs.language.Control.{seen_stmts};
ghost use Rattle.branch_tree.specs.Tree.{seen_end, seen_tree};
ghost use Rattle.body_rendering.specs.Pieces.{AddsStmts};
ghost use Rattle.body_rendering.specs.Procedure.{stops, IsSentence, IsProcedure, closed_stmts};

use crate::leaves::add_stop;
use crate::pieces::{add_body, drop_tree};
use branch_tree::{End, Tree};
use cob_base::{Items, NoMemory};
use cob_tree::{Sentence, Stmt};
use statement_builders::arms::{ProcedurePlace, or_continue};
use statement_builders::item_words::{CellItem, drop_stmts};
use std::alloc::Global;

/// Whether a procedure other than main ends the run.
fn stops(end: &End) -> bool
    ensures { result ≡ stops (seen_end end.now) }
{
    match end {
        End::Pick { .. } => false,
        End::Jump(_) => false,
        End::Return => false,
        End::Stop => true,
        End::Dead => false,
    }
}

fn ends_run(is_main: bool, end: &End) -> bool
    ensures { result ≡ (is_main || stops (seen_end end.now)) }
{
    is_main || stops(end)
}

fn add_closed(
    alloc: Global,
    made: &mut Items<Stmt>,
    tree: &mut Tree,
    is_main: bool,
    cells: &[CellItem],
    places: &[ProcedurePlace],
) -> Result<(), NoMemory>
    ensures { OnOk result (AddsStmts cells.now places.now (closed_stmts is_main (seen_tree tree.old))
        made.old made.new) }
{
    add_body(alloc, made, tree.body.make_contiguous(), cells, places)?;
    if ends_run(is_main, &tree.end) {
        add_stop(made)
    } else {
        Ok(())
    }
}

fn sentence_of(stmts: Items<Stmt>) -> Result<Sentence, NoMemory>
    ensures { IfOk result (λ made. IsSentence (seen_stmts 0 stmts) made) }
{
    match or_continue(stmts) {
        Ok(stmts) => Ok(Sentence { stmts }),
        Err(fault) => Err(fault),
    }
}

/// The sentence of main, which ends in STOP RUN, or of another procedure, which does so where its
/// end is Stop. Err where memory runs out, where a range that is performed has no place or a cell
/// no item, and where a number or a choice doesn't fit its item.
pub fn write_procedure(
    alloc: Global,
    tree: Tree,
    is_main: bool,
    cells: &[CellItem],
    places: &[ProcedurePlace],
) -> Result<Sentence, NoMemory>
    ensures { IfOk result (λ made. IsProcedure cells.now places.now is_main (seen_tree tree)
        made) }
{
    let mut tree = tree;
    let mut made = Items::new(alloc);
    match add_closed(alloc, &mut made, &mut tree, is_main, cells, places) {
        Ok(()) => {
            drop_tree(tree);
            sentence_of(made)
        }
        Err(fault) => {
            drop_tree(tree);
            drop_stmts(made);
            Err(fault)
        }
    }
}
