//! The ranges that statements name.

ghost use Rattle.std.specs.Prelude.{◌≡◌, ◌++◌, OnOk};
ghost use Rattle.program_points.specs.perform_ranges.Named.{named_range, named_stmt, named_arms, named_stmts, named_whens, named_paragraph, named_paragraphs};

use cob_base::{Items, NoMemory};
use cob_tree::{Arms, Paragraph, Range, Stmt, When};

/// Adds the range that a PERFORM names.
fn add_range(found: &mut Vec<Range>, entry: u32, exit: u32) -> Result<(), NoMemory>
    ensures { OnOk result (found.new.items ≡ found.old.items ++ named_range entry exit) }
{
    found.push(Range {
        entry,
        exit: Some(exit),
    })?;
    Ok(())
}

/// Adds the ranges that the statement names.
#[cycle(named)]
fn named_stmt(found: &mut Vec<Range>, stmt: &Stmt) -> Result<(), NoMemory>
    ensures { OnOk result (found.new.items ≡ found.old.items ++ named_stmt stmt.now) }
{
    match stmt {
        Stmt::Arith { arms, .. } => named_arms(found, arms),
        Stmt::Read { arms, .. } => named_arms(found, arms),
        Stmt::If { yes, no, .. } => {
            named_stmts(found, yes)?;
            named_stmts(found, no)
        }
        Stmt::Evaluate { whens, other, .. } => {
            named_whens(found, whens)?;
            match other {
                None => Ok(()),
                Some(stmts) => named_stmts(found, stmts),
            }
        }
        Stmt::Loop { body, .. } => named_stmts(found, body),
        Stmt::Perform { entry, exit, .. } => add_range(found, *entry, *exit),
        _ => Ok(()),
    }
}

#[cycle(named)]
fn named_arms(found: &mut Vec<Range>, arms: &Arms) -> Result<(), NoMemory>
    ensures { OnOk result (found.new.items ≡ found.old.items ++ named_arms arms.now) }
{
    match &arms.first {
        None => match &arms.second {
            None => Ok(()),
            Some(others) => named_stmts(found, others),
        },
        Some(stmts) => {
            named_stmts(found, stmts)?;
            match &arms.second {
                None => Ok(()),
                Some(others) => named_stmts(found, others),
            }
        }
    }
}

/// Adds the ranges that the statements name.
#[cycle(named)]
pub fn named_stmts(found: &mut Vec<Range>, stmts: &Items<Stmt>) -> Result<(), NoMemory>
    ensures { OnOk result (found.new.items ≡ found.old.items ++ named_stmts stmts.now) }
{
    for stmt in stmts.as_slice() {
        named_stmt(found, stmt)?;
    }
    Ok(())
}

#[cycle(named)]
fn named_whens(found: &mut Vec<Range>, whens: &Items<When>) -> Result<(), NoMemory>
    ensures { OnOk result (found.new.items ≡ found.old.items ++ named_whens whens.now) }
{
    for when in whens.as_slice() {
        named_stmts(found, &when.stmts)?;
    }
    Ok(())
}

fn named_paragraph(found: &mut Vec<Range>, paragraph: &Paragraph) -> Result<(), NoMemory>
    ensures { OnOk result (found.new.items ≡ found.old.items ++ named_paragraph paragraph.now) }
{
    for sentence in paragraph.sentences.as_slice() {
        named_stmts(found, &sentence.stmts)?;
    }
    Ok(())
}

/// Adds the ranges that the paragraphs name.
pub fn named_paragraphs(found: &mut Vec<Range>, paragraphs: &[Paragraph]) -> Result<(), NoMemory>
    ensures { OnOk result (found.new.items ≡ found.old.items ++ named_paragraphs paragraphs.now) }
{
    for paragraph in paragraphs {
        named_paragraph(found, paragraph)?;
    }
    Ok(())
}
