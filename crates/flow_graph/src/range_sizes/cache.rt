//! What has been counted of the trees at labels.

ghost use Rattle.std.specs.Prelude.{◌≡◌, ◌^◌, ◌<◌, ◌≤◌, length, IfOk, OnOk};
ghost use Rattle.control_flow_theory.specs.semantics.Graph.{end_of};
ghost use Rattle.branch_tree.specs.Tree.{seen_tree};
ghost use Rattle.flow_graph.specs.Jumps.{JumpBelow};
ghost use Rattle.pending_returns.specs.levels.Reach.{IsMarked};
ghost use Rattle.flow_graph.specs.range_sizes.Cache.{Counts, IsKnownAnyhow, Keeps, kept_in, number_in, with_number};

use crate::graph_sizes::tree_size;
use crate::range_sizes::exits::{Passing, all_go_within};
use crate::range_sizes::parts::{Jumps, TreeCount};
use crate::visit_tree;
use branch_tree::Tree;
use cob_base::NoMemory;
use pending_returns::levels::Reach;
use statement_lowering::continuations::Continuation;
use std::alloc::Global;

/// The numbers of the counts that are kept for a label, by how a range goes on from there.
#[derive(Clone, Copy)]
struct Row {
    falls: Option<u32>,
    returns: Option<u32>,
    leaves: Option<u32>,
}

/// The counts that are kept of the trees at labels.
#[derive(Drop)]
pub struct TreeSizeCache {
    rows: Vec<Row>,
    parts: Vec<TreeCount>,
    pub jumps: Vec<Jumps>,
    /// Used to list each label to which a tree jumps once.
    seen: Reach,
    /// Whether ranges that go on alike from a rest have the same tree there.
    pub shared: bool,
}

fn number_in(row: Row, passing: Passing) -> Option<u32>
    ensures { result ≡ number_in row passing }
{
    match passing {
        Passing::Falls => row.falls,
        Passing::Returns => row.returns,
        Passing::Leaves => row.leaves,
    }
}

fn with_number(row: Row, passing: Passing, number: u32) -> Row
    ensures { result ≡ with_number row passing number }
{
    let mut row = row;
    match passing {
        Passing::Falls => row.falls = Some(number),
        Passing::Returns => row.returns = Some(number),
        Passing::Leaves => row.leaves = Some(number),
    }
    row
}

impl TreeSizeCache {
    /// A cache with no count yet.
    pub fn new(alloc: Global, spots: &[Continuation<'_>]) -> Result<TreeSizeCache, NoMemory>
        requires small { length spots.now < 2 ^ 30 }
        ensures { IfOk result (IsKnownAnyhow spots.now) }
    {
        let none = Row {
            falls: None,
            returns: None,
            leaves: None,
        };
        let rows = vec![in alloc; none; spots.len() * 3]?;
        let seen = Reach::new(alloc, spots.len() * 3)?;
        Ok(TreeSizeCache {
            rows,
            parts: Vec::new(alloc),
            jumps: Vec::new(alloc),
            seen,
            shared: all_go_within(spots),
        })
    }

    /// The count that is kept of the tree at a label, where there is one.
    pub fn kept(&self, label: u32, passing: Passing) -> Option<TreeCount>
        ensures { result ≡ kept_in self.now label passing }
    {
        match self.rows.get(label as usize) {
            None => None,
            Some(row) => match number_in(*row, passing) {
                None => None,
                Some(number) => match self.parts.get(number as usize) {
                    None => None,
                    Some(part) => Some(*part),
                },
            },
        }
    }

    /// Keeps the count of the tree at a label, as long as 32 bits number the counts.
    pub fn keep(&mut self, label: u32, passing: Passing, part: TreeCount) -> Result<(), NoMemory>
        requires there { label < length self.old.rows.items }
        ensures kept { OnOk result (Keeps label passing part self.old self.new) }
        ensures jumps { self.new.jumps ≡ self.old.jumps }
        ensures seen { self.new.seen ≡ self.old.seen }
        ensures shared { self.new.shared ≡ self.old.shared }
    {
        let number = self.parts.len();
        if number >= u32::MAX as usize {
            return Ok(());
        }
        self.parts.push(part)?;
        let row = self.rows[label as usize];
        self.rows[label as usize] = with_number(row, passing, number as u32);
        Ok(())
    }

    /// Counts a tree; its jumps are kept.
    pub fn count(&mut self, alloc: Global, tree: &Tree) -> Result<TreeCount, NoMemory>
        requires marked { IsMarked self.old.seen.places.items self.old.seen.marks.items }
        requires below { JumpBelow (length self.old.seen.marks.items) (end_of (seen_tree tree.now)) }
        requires small { length self.old.seen.marks.items ≤ 2 ^ 32 }
        ensures { IfOk result (λ part. Counts (seen_tree tree.now) part self.old self.new) }
    {
        self.seen.clear();
        visit_tree(&mut self.seen, tree)?;
        let mut labels = Vec::new(alloc);
        labels.extend_from_slice(self.seen.places.as_slice())?;
        let number = self.jumps.len();
        match self.jumps.push(Jumps { labels }) {
            Ok(()) => {}
            Err(left) => {
                drop(left);
                return Err(NoMemory);
            }
        }
        Ok(TreeCount {
            size: tree_size(tree),
            jumps: number,
        })
    }
}
