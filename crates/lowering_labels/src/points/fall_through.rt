//! Where a range goes on after a paragraph.

ghost use Rattle.std.specs.Prelude.{◌≡◌, ◌+◌, ◌<◌, ◌^◌, drop, length};
ghost use Rattle.control_flow_theory.specs.language.Control.{section_last};
ghost use Rattle.lowering_labels.specs.points.FallThrough.{IsEnd, fallen};

use crate::points::jump_target::{JumpTarget, point};
use crate::points::layout::PlaceTable;
use cob_tree::{Paragraph, Range};

/// The target after a paragraph that isn't the exit: the next one; where there is none, the run
/// stops.
fn fall_leaf(layout: &PlaceTable, number: u32) -> JumpTarget
    ensures { result ≡ fallen layout.now.places.items number }
{
    match layout.places.get(number as usize + 1) {
        None => JumpTarget::Stop,
        Some(place) => JumpTarget::Jump(point(*place)),
    }
}

/// Where a range goes on after a paragraph.
pub fn paragraph_end_target(layout: &PlaceTable, range: Range, number: u32) -> JumpTarget
    ensures { IsEnd layout.now.places.items layout.now.end range number result }
{
    match range.exit {
        None => fall_leaf(layout, number),
        Some(exit) => {
            if exit == number {
                return JumpTarget::Return;
            }
            fall_leaf(layout, number)
        }
    }
}

/// The last paragraph of the section of the paragraph with this number, by those after it.
pub fn section_last(number: u32, behind: &[Paragraph]) -> u32
    requires { number + length behind.now < 2 ^ 32 }
    ensures { result ≡ section_last number behind.now }
{
    let mut last = number;
    for paragraph in behind {
        if paragraph.section.is_some() {
            return last;
        }
        last += 1;
    }
    last
}
