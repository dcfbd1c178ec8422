//! Laws of the trees at the labels of a loop.

ghost use Rattle.lowering_labels.specs.loop_nodes.Loops.{LoopsHaveTheseNodes};

/// The nodes of a loop in the theory of lowering are the tree at its head and that of its test or
/// step.
pub fn loops_have_these_nodes()
    ensures { LoopsHaveTheseNodes }
{}
