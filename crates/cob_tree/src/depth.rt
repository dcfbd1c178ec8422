//! How deep the statements of a program nest.

ghost use Rattle.std.specs.Prelude.{◌≡◌, ◌-◌, ◌^◌, min};
ghost use Rattle.cob_tree.specs.Depth.{program_depth, paragraph_depth, sentence_depth, stmts_depth, stmt_depth, arms_depth, whens_depth};

use crate::program::{Paragraph, Program, Sentence};
use crate::stmt::{Arms, Stmt, When};
use cob_base::Items;

impl Program {
    /// The nesting, 0 where no statement holds statements; at most the largest `u32`.
    pub fn depth(&self) -> u32
        ensures { result ≡ min (program_depth self.now) (2 ^ 32 - 1) }
    {
        let mut depth = 0u32;
        for paragraph in self.paragraphs.as_slice() {
            depth = depth.max(paragraph_depth(paragraph));
        }
        depth
    }
}

fn paragraph_depth(paragraph: &Paragraph) -> u32
    ensures { result ≡ min (paragraph_depth paragraph.now) (2 ^ 32 - 1) }
{
    let mut depth = 0u32;
    for sentence in paragraph.sentences.as_slice() {
        depth = depth.max(sentence_depth(sentence));
    }
    depth
}

fn sentence_depth(sentence: &Sentence) -> u32
    ensures { result ≡ min (sentence_depth sentence.now) (2 ^ 32 - 1) }
{
    stmts_depth(&sentence.stmts)
}

#[cycle(depth)]
fn stmt_depth(stmt: &Stmt) -> u32
    ensures { result ≡ min (stmt_depth stmt.now) (2 ^ 32 - 1) }
{
    match stmt {
        Stmt::Arith { arms, .. } => arms_depth(arms),
        Stmt::Read { arms, .. } => arms_depth(arms),
        Stmt::If { yes, no, .. } => stmts_depth(yes).max(stmts_depth(no)).saturating_add(1),
        Stmt::Evaluate { whens, other, .. } => {
            let first = whens_depth(whens).saturating_add(1);
            match other {
                None => first,
                Some(stmts) => stmts_depth(stmts).saturating_add(1).max(first),
            }
        }
        Stmt::Loop { body, .. } => stmts_depth(body).saturating_add(1),
        _ => 0,
    }
}

#[cycle(depth)]
fn arms_depth(arms: &Arms) -> u32
    ensures { result ≡ min (arms_depth arms.now) (2 ^ 32 - 1) }
{
    let first = match &arms.first {
        None => 0,
        Some(stmts) => stmts_depth(stmts).saturating_add(1),
    };
    match &arms.second {
        None => first,
        Some(stmts) => stmts_depth(stmts).saturating_add(1).max(first),
    }
}

#[cycle(depth)]
fn stmts_depth(stmts: &Items<Stmt>) -> u32
    ensures { result ≡ min (stmts_depth stmts.now) (2 ^ 32 - 1) }
{
    let mut depth = 0u32;
    for stmt in stmts.as_slice() {
        depth = depth.max(stmt_depth(stmt));
    }
    depth
}

#[cycle(depth)]
fn whens_depth(whens: &Items<When>) -> u32
    ensures { result ≡ min (whens_depth whens.now) (2 ^ 32 - 1) }
{
    let mut depth = 0u32;
    for when in whens.as_slice() {
        depth = depth.max(stmts_depth(&when.stmts));
    }
    depth
}
