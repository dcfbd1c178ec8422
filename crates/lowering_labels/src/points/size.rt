//! How many places statements take.

ghost use Rattle.std.specs.Prelude.{◌≡◌, ◌-◌, ◌^◌, min, sum_by};
ghost use Rattle.cob_tree.specs.Places.{stmt_places, arms_places, when_places};
ghost use Rattle.lowering_labels.specs.points.Layout.{paragraph_size};

use cob_tree::{Arms, Paragraph, Stmt, When};

/// The places of a statement, nested ones included; at most the largest `u64`.
#[cycle(size)]
pub fn stmt_size(stmt: &Stmt) -> u64
    ensures { result ≡ min (stmt_places stmt.now) (2 ^ 64 - 1) }
{
    match stmt {
        Stmt::Arith { arms, .. } => arms_size(arms).saturating_add(1),
        Stmt::Read { arms, .. } => arms_size(arms).saturating_add(1),
        Stmt::If { yes, no, .. } => stmts_size(yes.as_slice())
            .saturating_add(stmts_size(no.as_slice()))
            .saturating_add(1),
        Stmt::Evaluate { whens, other, .. } => {
            let first = whens_size(whens.as_slice()).saturating_add(1);
            match other {
                None => first,
                Some(stmts) => stmts_size(stmts.as_slice()).saturating_add(first),
            }
        }
        Stmt::Loop { body, .. } => stmts_size(body.as_slice()).saturating_add(1),
        _ => 1,
    }
}

#[cycle(size)]
fn arms_size(arms: &Arms) -> u64
    ensures { result ≡ min (arms_places arms.now) (2 ^ 64 - 1) }
{
    let first = match &arms.first {
        None => 0,
        Some(stmts) => stmts_size(stmts.as_slice()),
    };
    match &arms.second {
        None => first,
        Some(stmts) => stmts_size(stmts.as_slice()).saturating_add(first),
    }
}

/// The places of statements, nested ones included; at most the largest `u64`.
#[cycle(size)]
pub fn stmts_size(stmts: &[Stmt]) -> u64
    ensures { result ≡ min (sum_by stmt_places stmts.now) (2 ^ 64 - 1) }
{
    let mut count = 0u64;
    for stmt in stmts {
        count = count.saturating_add(stmt_size(stmt));
    }
    count
}

#[cycle(size)]
fn whens_size(whens: &[When]) -> u64
    ensures { result ≡ min (sum_by when_places whens.now) (2 ^ 64 - 1) }
{
    let mut count = 0u64;
    for when in whens {
        count = count.saturating_add(stmts_size(when.stmts.as_slice()));
    }
    count
}

/// The places of a paragraph's statements; at most the largest `u64`.
pub fn paragraph_size(paragraph: &Paragraph) -> u64
    ensures { result ≡ min (paragraph_size paragraph.now) (2 ^ 64 - 1) }
{
    let mut count = 0u64;
    for sentence in paragraph.sentences.as_slice() {
        count = count.saturating_add(stmts_size(sentence.stmts.as_slice()));
    }
    count
}
