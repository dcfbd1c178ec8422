//! Whether a part is one of the program's own, which has no word on an added item.

ghost use Rattle.std.specs.Prelude.{◌≡◌, true, is_some, map, not, IsTrue};
ghost use Rattle.control_flow_theory.specs.language.Control.{cell_of, cell_in, cell_chosen, control_in, test_of};
ghost use Rattle.control_flow_theory.specs.language.All.{all};
ghost use Rattle.control_flow_theory.specs.language.Own.{OwnTest};
ghost use Rattle.control_flow_theory.specs.language.OwnItems.{places_own, target_own, cond_own, control_own};
ghost use Rattle.program_facts.specs.own_items.Owning.{OwnTurns, IsOwnMove, IsOwnArith};

use cob_tree::{Cond, Control, Expr, Operand, Place, Subject, Target};

/// Whether the place is one of an added item.
pub fn is_added(place: &Place) -> bool
    ensures { result ≡ is_some (cell_of place.now) }
{
    place.item >= 1 << 31
}

/// Whether the expression is an added item.
fn is_added_side(side: &Expr) -> bool
    ensures { result ≡ is_some (cell_in side.now) }
{
    match side {
        Expr::Leaf(operand) => match operand {
            Operand::Place(place) => is_added(place),
            Operand::Number(_) => false,
            Operand::Text(_) => false,
            Operand::Figure(_) => false,
        },
        Expr::Minus(_) => false,
        Expr::Both(..) => false,
    }
}

/// Whether EVALUATE of this subject isn't a choice by an added item.
pub fn is_own_subject(subject: &Subject) -> bool
    ensures { result ≡ not (is_some (cell_chosen subject.now)) }
{
    match subject {
        Subject::True => true,
        Subject::False => true,
        Subject::Value(side) => !is_added_side(side),
    }
}

/// Whether a MOVE to these places isn't one to an added item alone.
pub fn is_own_move(to: &[Place]) -> bool
    ensures own { result ≡ true → IsOwnMove to.now }
    ensures every { IsTrue (places_own to.now) → result ≡ true }
{
    match to {
        [place] => !is_added(place),
        _ => true,
    }
}

/// Whether arithmetic into these targets isn't into an added item alone.
pub fn is_own_arith(into: &[Target]) -> bool
    ensures own { result ≡ true → IsOwnArith into.now }
    ensures every { IsTrue (all (map target_own into.now)) → result ≡ true }
{
    match into {
        [target] => !is_added(&target.place),
        _ => true,
    }
}

/// Whether the condition is neither a relation of an added item nor the negation of one.
#[cycle(own)]
pub fn is_own_test(cond: &Cond) -> bool
    ensures own { result ≡ true → OwnTest (test_of cond.now) }
    ensures every { IsTrue (cond_own cond.now) → result ≡ true }
{
    match cond {
        Cond::Relation(left, _, _) => !is_added_side(left),
        Cond::Class(..) => true,
        Cond::SignIs(..) => true,
        Cond::Named(_) => true,
        Cond::Not(inner) => is_own_test(inner.get()),
        Cond::And(..) => true,
        Cond::Or(..) => true,
    }
}

/// Whether a loop with this control isn't tested by an added item.
pub fn is_own_control(control: &Control) -> bool
    ensures own { result ≡ true → OwnTurns (control_in control.now) }
    ensures every { IsTrue (control_own control.now) → result ≡ true }
{
    match control {
        Control::Once => true,
        Control::Times(_) => true,
        Control::Until { cond, .. } => is_own_test(cond),
        Control::Varying { cond, .. } => is_own_test(cond),
    }
}
