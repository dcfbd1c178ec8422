//! The trees before a loop with an escape, and at its labels.

ghost use Rattle.std.specs.Prelude.{◌≡◌, IfOk, OnOk, IsTrue};
ghost use Rattle.control_flow_theory.specs.language.Control.{control_in, augmented, setting_item};
ghost use Rattle.control_flow_theory.specs.language.Language.{Do};
ghost use Rattle.control_flow_theory.specs.language.OwnItems.{control_own, place_own};
ghost use Rattle.control_flow_theory.specs.graph_rules.Shapes.{alone};
ghost use Rattle.control_flow_theory.specs.lowering.Lower.{loop_head_label, loop_step_label, by_test};
ghost use Rattle.branch_tree.specs.Choosers.{seen_test};
ghost use Rattle.branch_tree.specs.Tree.{seen_piece, seen_tree};
ghost use Rattle.lowering_labels.specs.loop_nodes.Nodes.{IsTree, Adds, AreBoth};
ghost use Rattle.lowering_labels.specs.loop_nodes.Loops.{back_by, start_by};

use crate::loop_nodes::ends::end_alone;
use branch_tree::{End, Label, Picker, Piece, Test, Tree};
use cob_base::{Copied, Items, NoMemory};
use cob_tree::{Arms, Calc, Control, Operand, Place, Stmt, Target};
use std::alloc::Global;

/// The label of the head of a loop at a place.
pub fn loop_head_label(place: u32) -> Label
    ensures { result ≡ loop_head_label place }
{
    Label { place, part: 1 }
}

/// The label of the test or step of a loop at a place.
pub fn loop_step_label(place: u32) -> Label
    ensures { result ≡ loop_step_label place }
{
    Label { place, part: 2 }
}

/// The label to which a loop's body comes back.
pub fn loop_back_label(control: &Control, place: u32) -> Label
    ensures { result ≡ back_by (control_in control.now) place }
{
    match control {
        Control::Once => loop_head_label(place),
        Control::Times(_) => loop_head_label(place),
        Control::Until { after, .. } => {
            if *after {
                loop_step_label(place)
            } else {
                loop_head_label(place)
            }
        }
        Control::Varying { .. } => loop_step_label(place),
    }
}

/// Adds the MOVE to the item of VARYING.
fn push_setting(
    alloc: Global,
    body: &mut Vec<Piece>,
    item: &Place,
    from: &Operand,
) -> Result<(), NoMemory>
    requires { IsTrue (place_own item.now) }
    ensures { OnOk result (Adds (alone (Do (setting_item item.now from.now))) body.old.items
        body.new.items) }
{
    let mut to = Items::new(alloc);
    to.push(item.copy(alloc)?)?;
    let from = from.copy(alloc)?;
    body.push(Piece::Own(Stmt::Move { from, to }))?;
    Ok(())
}

/// What comes before the head of a loop.
pub fn start_loop(
    alloc: Global,
    body: &mut Vec<Piece>,
    control: &Control,
    place: u32,
) -> Result<(), NoMemory>
    requires { IsTrue (control_own control.now) }
    ensures { OnOk result (Adds (start_by (control_in control.now) place) body.old.items
        body.new.items) }
{
    match control {
        Control::Once => Ok(()),
        Control::Times(amount) => {
            let amount = amount.copy(alloc)?;
            body.push(Piece::Take {
                cell: place,
                amount,
            })?;
            Ok(())
        }
        Control::Until { .. } => Ok(()),
        Control::Varying { item, from, .. } => { push_setting(alloc, body, item.get(), from.get()) }
    }
}

/// The ADD to the item of VARYING.
pub fn augmenting(alloc: Global, item: &Place, by: &Operand) -> Result<Piece, NoMemory>
    ensures { IfOk result (λ piece. seen_piece piece ≡ Do (augmented item.now by.now)) }
{
    let mut parts = Items::new(alloc);
    parts.push(by.copy(alloc)?)?;
    let mut into = Items::new(alloc);
    into.push(Target {
        place: item.copy(alloc)?,
        rounded: false,
    })?;
    Ok(Piece::Own(Stmt::Arith {
        calc: Calc::Add(parts),
        into,
        arms: Arms {
            first: None,
            second: None,
        },
    }))
}

fn both_arms(alloc: Global, holds: Tree, fails: Tree) -> Result<Items<Tree>, NoMemory>
    ensures { IfOk result (AreBoth (seen_tree holds) (seen_tree fails)) }
{
    let mut arms = Vec::new(alloc);
    match arms.reserve(2) {
        Ok(()) => {
            arms.push_reserved(holds);
            arms.push_reserved(fails);
            Ok(Items::from_vec(arms))
        }
        Err(_) => {
            drop(arms);
            drop(holds);
            drop(fails);
            Err(NoMemory)
        }
    }
}

/// The choice of a test, with the tree where it holds first.
pub fn by_test(alloc: Global, test: Test, holds: Tree, fails: Tree) -> Result<Tree, NoMemory>
    ensures { IfOk result (IsTree (by_test (seen_test test) (seen_tree holds) (seen_tree fails))) }
{
    match both_arms(alloc, holds, fails) {
        Ok(arms) => {
            let by = Picker::If(test);
            Ok(end_alone(alloc, End::Pick { by, arms }))
        }
        Err(fault) => {
            drop(test);
            Err(fault)
        }
    }
}
