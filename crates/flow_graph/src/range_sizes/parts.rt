//! The counts of a tree.

ghost use Rattle.std.specs.Prelude.{◌≡◌, length, OnOk};
ghost use Rattle.flow_graph.specs.Jumps.{AddsThose};
ghost use Rattle.pending_returns.specs.levels.Reach.{AllPlaces, Holds, IsMarked};

use cob_base::NoMemory;
use pending_returns::levels::Reach;

/// The labels to which a tree jumps. The trees that go on to the same end share them.
#[derive(Drop)]
pub struct Jumps {
    pub labels: Vec<u32>,
}

/// The counts of a tree: its statements, and the number under which its jumps are kept.
#[derive(Clone, Copy)]
pub struct TreeCount {
    pub size: u64,
    pub jumps: usize,
}

/// Adds these labels.
pub fn visit_labels(reach: &mut Reach, labels: &[u32]) -> Result<(), NoMemory>
    requires marked { IsMarked reach.old.places.items reach.old.marks.items }
    requires below { AllPlaces (length reach.old.marks.items) labels.now }
    ensures adds { OnOk result
        (AddsThose (Holds labels.now) reach.old.places.items reach.new.places.items) }
    ensures marked { IsMarked reach.new.places.items reach.new.marks.items }
    ensures size { length reach.new.marks.items ≡ length reach.old.marks.items }
{
    for label in labels {
        reach.visit(*label)?;
    }
    Ok(())
}
