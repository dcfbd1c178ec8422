//! How deep a statement of the program nests.

ghost use Rattle.std.specs.Prelude.{◌≡◌, ◌-◌, ◌^◌, min};
ghost use Rattle.region_rewrite.specs.written_nesting.Own.{own_nesting, arms_own, stmts_own, whens_own, later_own};

use cob_base::Items;
use cob_tree::{Arms, Stmt, When};

/// How deep the statement nests; at most the largest `u32`.
#[cycle(own)]
pub fn own_nesting(stmt: &Stmt) -> u32
    ensures { result ≡ min (own_nesting stmt.now) (2 ^ 32 - 1) }
{
    match stmt {
        Stmt::Arith { arms, .. } => arms_own(arms),
        Stmt::Read { arms, .. } => arms_own(arms),
        Stmt::If { yes, no, .. } => stmts_own(yes).max(stmts_own(no)).saturating_add(1),
        Stmt::Evaluate { whens, other, .. } => {
            let first = whens_own(whens);
            match other {
                None => first,
                Some(stmts) => stmts_own(stmts).saturating_add(1).max(first),
            }
        }
        Stmt::Loop { body, .. } => stmts_own(body).saturating_add(1),
        _ => 0,
    }
}

/// One level for the statements, where there are any.
#[cycle(own)]
#[tactic(auto, using(crate::proofs::written_nesting_lemmas::OwnRows::later_some))]
fn later_own(stmts: &Items<Stmt>) -> u32
    ensures { result ≡ min (later_own stmts.now) (2 ^ 32 - 1) }
{
    match stmts.as_slice() {
        [] => 0,
        _ => stmts_own(stmts).saturating_add(1),
    }
}

#[cycle(own)]
fn arms_own(arms: &Arms) -> u32
    ensures { result ≡ min (arms_own arms.now) (2 ^ 32 - 1) }
{
    let first = match &arms.first {
        None => 0,
        Some(stmts) => stmts_own(stmts).saturating_add(1),
    };
    match &arms.second {
        None => first,
        Some(stmts) => later_own(stmts).max(first),
    }
}

#[cycle(own)]
fn stmts_own(stmts: &Items<Stmt>) -> u32
    ensures { result ≡ min (stmts_own stmts.now) (2 ^ 32 - 1) }
{
    let mut depth = 0u32;
    for stmt in stmts.as_slice() {
        depth = depth.max(own_nesting(stmt));
    }
    depth
}

#[cycle(own)]
fn whens_own(whens: &Items<When>) -> u32
    ensures { result ≡ min (whens_own whens.now) (2 ^ 32 - 1) }
{
    let mut depth = 0u32;
    for when in whens.as_slice() {
        depth = depth.max(stmts_own(&when.stmts).saturating_add(1));
    }
    depth
}
