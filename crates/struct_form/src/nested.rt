//! Statements without a jump, whose PERFORMs each name one later paragraph.

ghost use Rattle.std.specs.Prelude.{◌≡◌};
ghost use Rattle.struct_form.specs.Nested.{names_later, stmt_nests, arms_nest, stmts_nest, whens_nest, paragraph_nests, paragraphs_nest};

use cob_base::Items;
use cob_tree::{Arms, Paragraph, Stmt, When};

/// Whether a statement holds no jump, and each PERFORM of paragraphs in it names one later than
/// this one.
#[cycle(nests)]
fn stmt_nests(stmt: &Stmt, count: usize, here: usize) -> bool
    ensures { result ≡ stmt_nests count here stmt.now }
{
    match stmt {
        Stmt::Arith { arms, .. } => arms_nest(arms, count, here),
        Stmt::Read { arms, .. } => arms_nest(arms, count, here),
        Stmt::If { yes, no, .. } => stmts_nest(yes, count, here) && stmts_nest(no, count, here),
        Stmt::Evaluate { whens, other, .. } => {
            whens_nest(whens, count, here)
                && match other {
                    None => true,
                    Some(stmts) => stmts_nest(stmts, count, here),
                }
        }
        Stmt::Loop { body, .. } => stmts_nest(body, count, here),
        Stmt::Perform { entry, exit, .. } => names_later(count, here, *entry, *exit),
        Stmt::Go(_) => false,
        Stmt::GoDepending { .. } => false,
        Stmt::NextSentence => false,
        Stmt::Exit => false,
        Stmt::ExitParagraph => false,
        Stmt::ExitSection => false,
        Stmt::ExitPerform { .. } => false,
        _ => true,
    }
}

#[cycle(nests)]
fn arms_nest(arms: &Arms, count: usize, here: usize) -> bool
    ensures { result ≡ arms_nest count here arms.now }
{
    let first = match &arms.first {
        None => true,
        Some(stmts) => stmts_nest(stmts, count, here),
    };
    let second = match &arms.second {
        None => true,
        Some(stmts) => stmts_nest(stmts, count, here),
    };
    first && second
}

#[cycle(nests)]
fn stmts_nest(stmts: &Items<Stmt>, count: usize, here: usize) -> bool
    ensures { result ≡ stmts_nest count here stmts.now }
{
    for stmt in stmts.as_slice() {
        if !stmt_nests(stmt, count, here) {
            return false;
        }
    }
    true
}

#[cycle(nests)]
fn whens_nest(whens: &Items<When>, count: usize, here: usize) -> bool
    ensures { result ≡ whens_nest count here whens.now }
{
    for when in whens.as_slice() {
        if !stmts_nest(&when.stmts, count, here) {
            return false;
        }
    }
    true
}

fn names_later(count: usize, here: usize, entry: u32, exit: u32) -> bool
    ensures { result ≡ names_later count here entry exit }
{
    entry == exit && here < entry as usize && (entry as usize) < count
}

fn paragraph_nests(paragraph: &Paragraph, count: usize, here: usize) -> bool
    ensures { result ≡ paragraph_nests count here paragraph.now }
{
    match paragraph.sentences.as_slice() {
        [sentence] => {
            paragraph.name.is_some()
                && paragraph.section.is_none()
                && stmts_nest(&sentence.stmts, count, here)
        }
        _ => false,
    }
}

/// Whether each paragraph has a name, is in no section, and has one sentence, whose statements
/// nest.
pub fn paragraphs_nest(paragraphs: &[Paragraph], count: usize) -> bool
    ensures { result ≡ paragraphs_nest count 0 paragraphs.now }
{
    for (here, paragraph) in paragraphs.iter().enumerate() {
        if !paragraph_nests(paragraph, count, here) {
            return false;
        }
    }
    true
}
