//! How ranges go on from a rest.

ghost use Rattle.std.specs.Prelude.{◌≡◌, true};
ghost use Rattle.flow_graph.specs.label_trees.Node.{returns_at};
ghost use Rattle.flow_graph.specs.range_sizes.Exits.{AllGoWithin, goes_within, passing_of};

use cob_tree::Range;
use statement_lowering::continuations::{Continuation, Successors};

/// How a range goes on from a rest's paragraph: past the ends of the paragraph and its section, or
/// it returns at that of the paragraph, or of the section alone.
#[derive(Clone, Copy)]
pub enum Passing {
    Falls,
    Returns,
    Leaves,
}

/// Whether a range with this exit returns at the end of a paragraph.
fn returns_at(exit: Option<u32>, number: u32) -> bool
    ensures { result ≡ returns_at exit number }
{
    match exit {
        None => false,
        Some(end) => end == number,
    }
}

/// How this range goes on from a rest's paragraph.
pub fn passing_of(range: Range, onward: &Successors) -> Passing
    ensures { result ≡ passing_of range.exit onward.now }
{
    if returns_at(range.exit, onward.paragraph) {
        return Passing::Returns;
    }
    if returns_at(range.exit, onward.last) {
        return Passing::Leaves;
    }
    Passing::Falls
}

/// Whether the rest at the next place is in the same paragraph and section.
fn goes_within(spots: &[Continuation<'_>], onward: &Successors, next: u32) -> bool
    ensures { result ≡ goes_within spots.now onward.now next }
{
    match spots.get(next as usize) {
        None => true,
        Some(spot) => {
            spot.onward.paragraph == onward.paragraph && spot.onward.last == onward.last
        }
    }
}

/// Whether the tree at each rest goes on in its paragraph alone. In the table of a program it does,
/// but the table's contract doesn't say so: it is tested once, in place of a proof.
pub fn all_go_within(spots: &[Continuation<'_>]) -> bool
    ensures { result ≡ true → AllGoWithin spots.now }
{
    for spot in spots {
        match spot.onward.behind {
            None => {}
            Some(next) => {
                if !goes_within(spots, &spot.onward, next) {
                    return false;
                }
            }
        }
    }
    true
}
