//! Counts the tree at a label, and goes on to the labels to which it jumps.

ghost use Rattle.std.specs.Prelude.{◌≡◌, ◌*◌, ◌<◌, ◌/◌, length, true, IfOk};
ghost use Rattle.flow_graph.specs.Counts.{IsSizeAt};
ghost use Rattle.flow_graph.specs.Reaching.{AddsNodeJumps, NodeJumpsBelow};
ghost use Rattle.pending_returns.specs.levels.Reach.{IsMarked};
ghost use Rattle.flow_graph.specs.label_trees.Node.{IsWhole};
ghost use Rattle.flow_graph.specs.range_sizes.Exits.{GoesSo};
ghost use Rattle.flow_graph.specs.range_sizes.Cache.{IsKnown, IsPartAt};

use crate::graph_sizes::tree_size;
use crate::label_trees::label_tree;
use crate::range_sizes::cache::TreeSizeCache;
use crate::range_sizes::exits::{Passing, passing_of};
use crate::range_sizes::parts::{TreeCount, visit_labels};
use crate::range_sizes::segment::point_part;
use crate::visit_tree;
use cob_base::NoMemory;
use cob_tree::Range;
use pending_returns::levels::Reach;
use statement_lowering::LoweringContext;
use statement_lowering::continuations::Continuation;
use std::alloc::Global;

/// The count of the tree at a label of a loop, which goes on as no other.
fn turn_part(
    alloc: Global,
    known: &mut TreeSizeCache,
    spots: &[Continuation<'_>],
    label: u32,
    passing: Passing,
    range: Range,
    telling: &LoweringContext<'_>,
) -> Result<TreeCount, NoMemory>
    requires whole { IsWhole telling.now spots.now }
    requires known { IsKnown telling.now spots.now known.old }
    requires shared { known.old.shared ≡ true }
    requires there { label < 3 * length spots.now }
    requires goes { GoesSo spots.now range (label / 3) passing }
    requires below { NodeJumpsBelow telling.now spots.now range label (3 * length spots.now) }
    ensures part { IfOk result (IsPartAt telling.now spots.now known.new.jumps.items label passing) }
    ensures known { IfOk result (λ part. IsKnown telling.now spots.now known.new) }
{
    match known.kept(label, passing) {
        Some(part) => return Ok(part),
        None => {}
    }
    let tree = label_tree(alloc, spots, label, range, telling)?;
    let counted = known.count(alloc, &tree);
    drop(tree);
    let part = counted?;
    known.keep(label, passing, part)?;
    Ok(part)
}

/// The count of the tree at a label.
fn part_at(
    alloc: Global,
    known: &mut TreeSizeCache,
    spots: &[Continuation<'_>],
    label: u32,
    passing: Passing,
    range: Range,
    telling: &LoweringContext<'_>,
) -> Result<TreeCount, NoMemory>
    requires whole { IsWhole telling.now spots.now }
    requires known { IsKnown telling.now spots.now known.old }
    requires shared { known.old.shared ≡ true }
    requires there { label < 3 * length spots.now }
    requires goes { GoesSo spots.now range (label / 3) passing }
    requires below { NodeJumpsBelow telling.now spots.now range label (3 * length spots.now) }
    ensures part { IfOk result (IsPartAt telling.now spots.now known.new.jumps.items label passing) }
    ensures known { IfOk result (λ part. IsKnown telling.now spots.now known.new) }
{
    if label % 3 == 0 {
        let part = point_part(alloc, known, spots, label / 3, passing, range, telling)?;
        return Ok(part);
    }
    let part = turn_part(alloc, known, spots, label, passing, range, telling)?;
    Ok(part)
}

/// The same as `visit_label`, but nothing is kept: for a table of which it isn't known that a tree
/// goes on in its paragraph alone. No program has such a table.
fn visit_alone(
    alloc: Global,
    reach: &mut Reach,
    spots: &[Continuation<'_>],
    label: u32,
    range: Range,
    telling: &LoweringContext<'_>,
) -> Result<u64, NoMemory>
    requires marked { IsMarked reach.old.places.items reach.old.marks.items }
    requires whole { IsWhole telling.now spots.now }
    requires size { length reach.old.marks.items ≡ 3 * length spots.now }
    requires there { label < 3 * length spots.now }
    requires below { NodeJumpsBelow telling.now spots.now range label
        (length reach.old.marks.items) }
    ensures adds { IfOk result (λ size. AddsNodeJumps telling.now spots.now range label
        reach.old.places.items reach.new.places.items) }
    ensures size { IfOk result (IsSizeAt telling.now spots.now range label) }
    ensures marked { IsMarked reach.new.places.items reach.new.marks.items }
    ensures marks { length reach.new.marks.items ≡ length reach.old.marks.items }
{
    let tree = label_tree(alloc, spots, label, range, telling)?;
    let size = tree_size(&tree);
    let visited = visit_tree(reach, &tree);
    drop(tree);
    visited?;
    Ok(size)
}

/// The statements of the tree at a label; the labels to which it jumps are added.
pub fn visit_label(
    alloc: Global,
    reach: &mut Reach,
    known: &mut TreeSizeCache,
    spots: &[Continuation<'_>],
    label: u32,
    range: Range,
    telling: &LoweringContext<'_>,
) -> Result<u64, NoMemory>
    requires marked { IsMarked reach.old.places.items reach.old.marks.items }
    requires whole { IsWhole telling.now spots.now }
    requires known { IsKnown telling.now spots.now known.old }
    requires size { length reach.old.marks.items ≡ 3 * length spots.now }
    requires there { label < 3 * length spots.now }
    requires below { NodeJumpsBelow telling.now spots.now range label
        (length reach.old.marks.items) }
    ensures adds { IfOk result (λ size. AddsNodeJumps telling.now spots.now range label
        reach.old.places.items reach.new.places.items) }
    ensures size { IfOk result (IsSizeAt telling.now spots.now range label) }
    ensures known { IfOk result (λ size. IsKnown telling.now spots.now known.new) }
    ensures marked { IsMarked reach.new.places.items reach.new.marks.items }
    ensures marks { length reach.new.marks.items ≡ length reach.old.marks.items }
{
    if !known.shared {
        let size = visit_alone(alloc, reach, spots, label, range, telling)?;
        return Ok(size);
    }
    let passing = passing_of(range, &spots[(label / 3) as usize].onward);
    let part = part_at(alloc, known, spots, label, passing, range, telling)?;
    visit_labels(reach, known.jumps[part.jumps].labels.as_slice())?;
    Ok(part.size)
}
