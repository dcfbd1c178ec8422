//! Ends without a choice, and the choice of a GO TO DEPENDING.

ghost use Rattle.std.specs.Prelude.{◌≡◌, ◌∷◌, [], ◌++◌, length, map, IfOk, OnOk};
ghost use Rattle.control_flow_theory.specs.language.Language.{By, Depending};
ghost use Rattle.control_flow_theory.specs.semantics.Graph.{Pick};
ghost use Rattle.branch_tree.specs.Tree.{seen_end, seen_tree, seen_trees};
ghost use Rattle.control_flow_theory.specs.lowering.Lower.{end_alone};
ghost use Rattle.lowering_labels.specs.points.JumpTarget.{seen_target};
ghost use Rattle.lowering_labels.specs.loop_nodes.Ends.{AddsArm, AddsJumps, IsDepending, IsDependingEnd};

use crate::points::{JumpTarget, PlaceTable, point};
use branch_tree::{Chooser, End, Picker, Tree};
use cob_base::{Copied, Items, NoMemory};
use cob_tree::Place;
use std::alloc::Global;
use std::collections::VecDeque;

/// A jump target as the end of a tree.
pub fn end_at(leaf: JumpTarget) -> End
    ensures { seen_end result ≡ seen_target leaf }
{
    match leaf {
        JumpTarget::Jump(to) => End::Jump(to),
        JumpTarget::Return => End::Return,
        JumpTarget::Stop => End::Stop,
    }
}

/// A tree that is only an end.
pub fn end_alone(alloc: Global, end: End) -> Tree
    ensures { seen_tree result ≡ end_alone (seen_end end) }
{
    Tree {
        body: VecDeque::new(alloc),
        end,
    }
}

/// Adds an arm that is only an end.
pub fn push_only(alloc: Global, arms: &mut Items<Tree>, end: End) -> Result<(), NoMemory>
    ensures { OnOk result (AddsArm (end_alone (seen_end end)) arms.old arms.new) }
{
    arms.push(end_alone(alloc, end))
}

/// Adds an arm for each name of a GO TO DEPENDING.
fn push_jumps(
    alloc: Global,
    arms: &mut Items<Tree>,
    to: &[u32],
    layout: &PlaceTable,
) -> Result<(), NoMemory>
    ensures { OnOk result (AddsJumps layout.now to.now arms.old arms.new) }
{
    for number in to {
        push_only(alloc, arms, End::Jump(point(layout.place_of(*number))))?;
    }
    Ok(())
}

/// Adds the arms of a GO TO DEPENDING: one for each name, and one for no name.
fn push_names(
    alloc: Global,
    arms: &mut Items<Tree>,
    to: &[u32],
    layout: &PlaceTable,
    after: JumpTarget,
) -> Result<(), NoMemory>
    requires { arms.old ≡ [] }
    ensures { OnOk result (IsDepending layout.now to.now after arms.new) }
{
    push_jumps(alloc, arms, to, layout)?;
    push_only(alloc, arms, end_at(after))?;
    Ok(())
}

/// The choice of a GO TO DEPENDING, by its arms.
fn pick_depending(alloc: Global, on: &Place, names: u32, arms: Items<Tree>) -> Result<End, NoMemory>
    ensures { IfOk result (λ end. seen_end end
        ≡ Pick (By (Depending on.now names)) (seen_trees arms)) }
{
    match on.copy(alloc) {
        Ok(on) => {
            let by = Picker::By(Chooser::Depending { on, names });
            Ok(End::Pick { by, arms })
        }
        Err(fault) => {
            drop(arms);
            Err(fault)
        }
    }
}

/// The end at a GO TO DEPENDING. More names than 32 bits number are out of memory.
pub fn depending(
    alloc: Global,
    to: &[u32],
    on: &Place,
    layout: &PlaceTable,
    after: JumpTarget,
) -> Result<End, NoMemory>
    ensures { IfOk result (IsDependingEnd layout.now to.now on.now after) }
{
    if to.len() > u32::MAX as usize {
        return Err(NoMemory);
    }
    let mut arms = Items::new(alloc);
    match push_names(alloc, &mut arms, to, layout, after) {
        Ok(()) => {
            let end = pick_depending(alloc, on, to.len() as u32, arms)?;
            Ok(end)
        }
        Err(fault) => {
            drop(arms);
            Err(fault)
        }
    }
}
