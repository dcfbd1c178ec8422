//! Statements whose lists are cut after what can't complete.

ghost use Rattle.std.specs.Prelude.{IfOk};
ghost use Rattle.program_facts.specs.completion.FlowFacts.{flow_facts_of};
ghost use Rattle.program_facts.specs.completion.Cutting.{IsCut, AreCut, BothAreCut, WhensAreCut};

use crate::completion::facts::stmt_facts;
use cob_base::{Copied, Items, NoMemory};
use cob_tree::{Arms, FileEntry, Stmt, When};
use std::alloc::Global;

/// A copy whose lists, also nested ones, end after their first statement that can't complete.
#[cycle(cut)]
pub fn cut_stmt(
    alloc: Global,
    stmt: &Stmt,
    files: &[FileEntry],
    returning: &[Items<u32>],
) -> Result<Stmt, NoMemory>
    ensures { IfOk result (λ made. IsCut (flow_facts_of files.now returning.now) stmt.now made) }
{
    match stmt {
        Stmt::Arith { calc, into, arms } => {
            let calc = calc.copy(alloc)?;
            let into = into.copy(alloc)?;
            let arms = cut_arms(alloc, arms, files, returning)?;
            Ok(Stmt::Arith { calc, into, arms })
        }
        Stmt::Read { file, into, arms } => {
            let into = into.copy(alloc)?;
            let arms = cut_arms(alloc, arms, files, returning)?;
            Ok(Stmt::Read {
                file: *file,
                into,
                arms,
            })
        }
        Stmt::If { cond, yes, no } => {
            let cond = cond.copy(alloc)?;
            let yes = cut_stmts(alloc, yes.as_slice(), files, returning)?;
            let no = cut_stmts(alloc, no.as_slice(), files, returning)?;
            Ok(Stmt::If { cond, yes, no })
        }
        Stmt::Evaluate {
            subject,
            whens,
            other,
        } => {
            let subject = subject.copy(alloc)?;
            let whens = cut_whens(alloc, whens.as_slice(), files, returning)?;
            match other {
                None => Ok(Stmt::Evaluate {
                    subject,
                    whens,
                    other: None,
                }),
                Some(stmts) => {
                    let stmts = cut_stmts(alloc, stmts.as_slice(), files, returning)?;
                    Ok(Stmt::Evaluate {
                        subject,
                        whens,
                        other: Some(stmts),
                    })
                }
            }
        }
        Stmt::Loop { control, body } => {
            let control = control.copy(alloc)?;
            let body = cut_stmts(alloc, body.as_slice(), files, returning)?;
            Ok(Stmt::Loop { control, body })
        }
        Stmt::Perform { .. } => stmt.copy(alloc),
        Stmt::Go(_) => stmt.copy(alloc),
        Stmt::GoDepending { .. } => stmt.copy(alloc),
        Stmt::NextSentence => stmt.copy(alloc),
        Stmt::ExitParagraph => stmt.copy(alloc),
        Stmt::ExitSection => stmt.copy(alloc),
        Stmt::ExitPerform { .. } => stmt.copy(alloc),
        Stmt::StopRun => stmt.copy(alloc),
        Stmt::Display { .. } => stmt.copy(alloc),
        Stmt::Move { .. } => stmt.copy(alloc),
        Stmt::SetTrue(_) => stmt.copy(alloc),
        Stmt::Opens(_) => stmt.copy(alloc),
        Stmt::Closes(_) => stmt.copy(alloc),
        Stmt::Write { .. } => stmt.copy(alloc),
        Stmt::Rewrite { .. } => stmt.copy(alloc),
        Stmt::Exit => stmt.copy(alloc),
        Stmt::Continue => stmt.copy(alloc),
    }
}

#[cycle(cut)]
fn cut_arms(
    alloc: Global,
    arms: &Arms,
    files: &[FileEntry],
    returning: &[Items<u32>],
) -> Result<Arms, NoMemory>
    ensures { IfOk result (λ made. BothAreCut (flow_facts_of files.now returning.now) arms.now made) }
{
    match &arms.first {
        None => match &arms.second {
            None => Ok(Arms {
                first: None,
                second: None,
            }),
            Some(stmts) => {
                let second = cut_stmts(alloc, stmts.as_slice(), files, returning)?;
                Ok(Arms {
                    first: None,
                    second: Some(second),
                })
            }
        },
        Some(stmts) => {
            let first = cut_stmts(alloc, stmts.as_slice(), files, returning)?;
            match &arms.second {
                None => Ok(Arms {
                    first: Some(first),
                    second: None,
                }),
                Some(stmts) => {
                    let second = cut_stmts(alloc, stmts.as_slice(), files, returning)?;
                    Ok(Arms {
                        first: Some(first),
                        second: Some(second),
                    })
                }
            }
        }
    }
}

/// Copies of statements, up to the first that can't complete.
#[cycle(cut)]
pub fn cut_stmts(
    alloc: Global,
    stmts: &[Stmt],
    files: &[FileEntry],
    returning: &[Items<u32>],
) -> Result<Items<Stmt>, NoMemory>
    ensures { IfOk result (λ made. AreCut (flow_facts_of files.now returning.now) stmts.now made) }
{
    let mut made = Items::new(alloc);
    for stmt in stmts {
        made.push(cut_stmt(alloc, stmt, files, returning)?)?;
        let facts = stmt_facts(stmt, files, returning);
        if !facts.completes {
            return Ok(made);
        }
    }
    Ok(made)
}

#[cycle(cut)]
fn cut_whens(
    alloc: Global,
    whens: &[When],
    files: &[FileEntry],
    returning: &[Items<u32>],
) -> Result<Items<When>, NoMemory>
    ensures { IfOk result
        (λ made. WhensAreCut (flow_facts_of files.now returning.now) whens.now made) }
{
    let mut made = Items::new(alloc);
    for when in whens {
        let tests = when.tests.copy(alloc)?;
        let stmts = cut_stmts(alloc, when.stmts.as_slice(), files, returning)?;
        made.push(When { tests, stmts })?;
    }
    Ok(made)
}
