//! Terms of conditions. A count is at most the largest `u32`.

ghost use Rattle.std.specs.Prelude.{◌≡◌, ◌-◌, ◌^◌, min};
ghost use Rattle.program_facts.specs.term_counts.Condition.{cond_terms};

use crate::term_counts::expression::{expr_terms, place_terms};
use cob_tree::Cond;

/// The terms of a condition.
pub fn cond_terms(cond: &Cond) -> u32
    ensures { result ≡ min (cond_terms cond.now) (2 ^ 32 - 1) }
{
    match cond {
        Cond::Relation(left, _, right) => expr_terms(left).saturating_add(expr_terms(right)),
        Cond::Class(place, _, _) => place_terms(place).saturating_add(1),
        Cond::SignIs(expr, _, _) => expr_terms(expr),
        Cond::Named(place) => place_terms(place).saturating_add(1),
        Cond::Not(inner) => cond_terms(inner.get()).saturating_add(1),
        Cond::And(left, right) => cond_terms(left.get()).saturating_add(cond_terms(right.get())),
        Cond::Or(left, right) => cond_terms(left.get()).saturating_add(cond_terms(right.get())),
    }
}
