//! Statements that hold no escape.

ghost use Rattle.std.specs.Prelude.{◌≡◌, false, IfOk, OnOk};
ghost use Rattle.statement_lowering.specs.LowerList.{flow_facts_by};
ghost use Rattle.statement_lowering.specs.EscapeFree.{AddsCut, Completes, Escapes, IsKind, RunsWhole};

use crate::context::LoweringContext;
use branch_tree::{End, Piece};
use cob_base::NoMemory;
use cob_tree::Stmt;
use program_facts::completion::cut_stmt;
use std::alloc::Global;

/// What a statement without an escape becomes in a tree.
#[derive(Clone, Copy)]
pub enum StmtKind {
    /// It does nothing, and is left out.
    Nothing,
    Stops,
    /// It is a statement of the body.
    Stands,
}

fn kind_of(stmt: &Stmt) -> StmtKind
    ensures { IsKind stmt.now result }
{
    match stmt {
        Stmt::Exit => StmtKind::Nothing,
        Stmt::Continue => StmtKind::Nothing,
        Stmt::StopRun => StmtKind::Stops,
        Stmt::Display { .. } => StmtKind::Stands,
        Stmt::Move { .. } => StmtKind::Stands,
        Stmt::Arith { .. } => StmtKind::Stands,
        Stmt::SetTrue(_) => StmtKind::Stands,
        Stmt::Opens(_) => StmtKind::Stands,
        Stmt::Closes(_) => StmtKind::Stands,
        Stmt::Read { .. } => StmtKind::Stands,
        Stmt::Write { .. } => StmtKind::Stands,
        Stmt::Rewrite { .. } => StmtKind::Stands,
        Stmt::If { .. } => StmtKind::Stands,
        Stmt::Evaluate { .. } => StmtKind::Stands,
        Stmt::Loop { .. } => StmtKind::Stands,
        Stmt::Perform { .. } => StmtKind::Stands,
        Stmt::Go(_) => StmtKind::Stands,
        Stmt::GoDepending { .. } => StmtKind::Stands,
        Stmt::NextSentence => StmtKind::Stands,
        Stmt::ExitParagraph => StmtKind::Stands,
        Stmt::ExitSection => StmtKind::Stands,
        Stmt::ExitPerform { .. } => StmtKind::Stands,
    }
}

/// Makes room for one more piece. The first gets room for itself alone, and the second for one more,
/// since most bodies have one piece or two.
fn make_room(body: &mut Vec<Piece>) -> Result<(), NoMemory>
    ensures { body.new.items ≡ body.old.items }
{
    let count = body.len();
    if count == body.capacity() {
        body.reserve_exact(count.max(1))?;
    }
    Ok(())
}

/// Adds a statement, with its lists cut, to a body.
fn push_cut(
    alloc: Global,
    body: &mut Vec<Piece>,
    stmt: &Stmt,
    telling: &LoweringContext<'_>,
) -> Result<(), NoMemory>
    requires { Escapes (flow_facts_by telling.now) stmt.now false }
    ensures { OnOk result
        (AddsCut (flow_facts_by telling.now) stmt.now body.old.items body.new.items) }
{
    make_room(body)?;
    let cut = cut_stmt(alloc, stmt, telling.files, telling.returning)?;
    body.push(Piece::Own(cut))?;
    Ok(())
}

/// Lowers a statement without an escape, which completes or doesn't.
pub fn run_whole(
    alloc: Global,
    body: &mut Vec<Piece>,
    stmt: &Stmt,
    completes: bool,
    telling: &LoweringContext<'_>,
) -> Result<Option<End>, NoMemory>
    requires whole { Escapes (flow_facts_by telling.now) stmt.now false }
    requires completes { Completes (flow_facts_by telling.now) stmt.now completes }
    ensures { IfOk result (λ end. RunsWhole (flow_facts_by telling.now) stmt.now end body.old.items
        body.new.items) }
{
    match kind_of(stmt) {
        StmtKind::Nothing => Ok(None),
        StmtKind::Stops => Ok(Some(End::Stop)),
        StmtKind::Stands => {
            push_cut(alloc, body, stmt, telling)?;
            if completes {
                return Ok(None);
            }
            Ok(Some(End::Dead))
        }
    }
}
