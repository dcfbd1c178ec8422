//! How many statements, sentences and paragraphs a program has.

ghost use Rattle.std.specs.Prelude.{◌≡◌, ◌-◌, ◌^◌, min, sum_by};
ghost use Rattle.cob_tree.specs.Places.{program_places, paragraph_places, sentence_places, stmt_places, arms_places, when_places};

use crate::program::{Paragraph, Program, Sentence};
use crate::stmt::{Arms, Stmt, When};
use cob_base::Items;

impl Program {
    /// Statements, nested ones included, sentences and paragraphs; at most the largest `u64`.
    pub fn places(&self) -> u64
        ensures { result ≡ min (program_places self.now) (2 ^ 64 - 1) }
    {
        let mut count = 0u64;
        for paragraph in self.paragraphs.as_slice() {
            count = count.saturating_add(paragraph_places(paragraph));
        }
        count
    }
}

fn paragraph_places(paragraph: &Paragraph) -> u64
    ensures { result ≡ min (paragraph_places paragraph.now) (2 ^ 64 - 1) }
{
    let mut count = 1u64;
    for sentence in paragraph.sentences.as_slice() {
        count = count.saturating_add(sentence_places(sentence));
    }
    count
}

fn sentence_places(sentence: &Sentence) -> u64
    ensures { result ≡ min (sentence_places sentence.now) (2 ^ 64 - 1) }
{
    stmts_places(&sentence.stmts).saturating_add(1)
}

#[cycle(places)]
fn stmt_places(stmt: &Stmt) -> u64
    ensures { result ≡ min (stmt_places stmt.now) (2 ^ 64 - 1) }
{
    match stmt {
        Stmt::Arith { arms, .. } => arms_places(arms).saturating_add(1),
        Stmt::Read { arms, .. } => arms_places(arms).saturating_add(1),
        Stmt::If { yes, no, .. } => stmts_places(yes)
            .saturating_add(stmts_places(no))
            .saturating_add(1),
        Stmt::Evaluate { whens, other, .. } => {
            let first = whens_places(whens).saturating_add(1);
            match other {
                None => first,
                Some(stmts) => stmts_places(stmts).saturating_add(first),
            }
        }
        Stmt::Loop { body, .. } => stmts_places(body).saturating_add(1),
        _ => 1,
    }
}

#[cycle(places)]
fn arms_places(arms: &Arms) -> u64
    ensures { result ≡ min (arms_places arms.now) (2 ^ 64 - 1) }
{
    let first = match &arms.first {
        None => 0,
        Some(stmts) => stmts_places(stmts),
    };
    match &arms.second {
        None => first,
        Some(stmts) => stmts_places(stmts).saturating_add(first),
    }
}

#[cycle(places)]
fn stmts_places(stmts: &Items<Stmt>) -> u64
    ensures { result ≡ min (sum_by stmt_places stmts.now) (2 ^ 64 - 1) }
{
    let mut count = 0u64;
    for stmt in stmts.as_slice() {
        count = count.saturating_add(stmt_places(stmt));
    }
    count
}

#[cycle(places)]
fn whens_places(whens: &Items<When>) -> u64
    ensures { result ≡ min (sum_by when_places whens.now) (2 ^ 64 - 1) }
{
    let mut count = 0u64;
    for when in whens.as_slice() {
        count = count.saturating_add(stmts_places(&when.stmts));
    }
    count
}
