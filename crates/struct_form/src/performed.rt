//! PERFORMs of a paragraph.

ghost use Rattle.std.specs.Prelude.{◌≡◌, ◌↔◌, IsTrue};
ghost use Rattle.struct_form.specs.Performed.{stmt_performs, arms_perform, stmts_perform, whens_perform, paragraph_performs, some_performs, EachPerformed};

use cob_base::Items;
use cob_tree::{Arms, Paragraph, Stmt, When};

/// Whether the statement is or holds a PERFORM from this paragraph on.
#[cycle(performs)]
fn stmt_performs(stmt: &Stmt, number: usize) -> bool
    ensures { result ≡ stmt_performs number stmt.now }
{
    match stmt {
        Stmt::Arith { arms, .. } => arms_perform(arms, number),
        Stmt::Read { arms, .. } => arms_perform(arms, number),
        Stmt::If { yes, no, .. } => stmts_perform(yes, number) || stmts_perform(no, number),
        Stmt::Evaluate { whens, other, .. } => {
            whens_perform(whens, number)
                || match other {
                    None => false,
                    Some(stmts) => stmts_perform(stmts, number),
                }
        }
        Stmt::Loop { body, .. } => stmts_perform(body, number),
        Stmt::Perform { entry, .. } => *entry as usize == number,
        _ => false,
    }
}

#[cycle(performs)]
fn arms_perform(arms: &Arms, number: usize) -> bool
    ensures { result ≡ arms_perform number arms.now }
{
    let first = match &arms.first {
        None => false,
        Some(stmts) => stmts_perform(stmts, number),
    };
    let second = match &arms.second {
        None => false,
        Some(stmts) => stmts_perform(stmts, number),
    };
    first || second
}

#[cycle(performs)]
fn stmts_perform(stmts: &Items<Stmt>, number: usize) -> bool
    ensures { result ≡ stmts_perform number stmts.now }
{
    for stmt in stmts.as_slice() {
        if stmt_performs(stmt, number) {
            return true;
        }
    }
    false
}

#[cycle(performs)]
fn whens_perform(whens: &Items<When>, number: usize) -> bool
    ensures { result ≡ whens_perform number whens.now }
{
    for when in whens.as_slice() {
        if stmts_perform(&when.stmts, number) {
            return true;
        }
    }
    false
}

fn paragraph_performs(paragraph: &Paragraph, number: usize) -> bool
    ensures { result ≡ paragraph_performs number paragraph.now }
{
    for sentence in paragraph.sentences.as_slice() {
        if stmts_perform(&sentence.stmts, number) {
            return true;
        }
    }
    false
}

/// Whether some of these paragraphs performs it.
fn some_performs(paragraphs: &[Paragraph], number: usize) -> bool
    ensures { result ≡ some_performs number paragraphs.now }
{
    for paragraph in paragraphs {
        if paragraph_performs(paragraph, number) {
            return true;
        }
    }
    false
}

/// Whether each paragraph but the first is performed from an earlier one.
pub fn each_performed(paragraphs: &[Paragraph]) -> bool
    ensures { IsTrue result ↔ EachPerformed paragraphs.now }
{
    for number in 1..paragraphs.len() {
        if !some_performs(&paragraphs[..number], number) {
            return false;
        }
    }
    true
}
