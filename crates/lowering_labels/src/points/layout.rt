//! The places of paragraphs.

ghost use Rattle.std.specs.Prelude.{◌≡◌, ◌<◌, ◌^◌, IfOk};
ghost use Rattle.cob_tree.specs.Places.{program_places};
ghost use Rattle.lowering_labels.specs.points.Layout.{place_at, IsLayout, places_from, end_from};

use crate::points::size::paragraph_size;
use cob_base::NoMemory;
use cob_tree::Program;
use std::alloc::Global;

/// The place of each paragraph, and the number after the last place.
#[derive(Drop)]
pub struct PlaceTable {
    pub places: Vec<u32>,
    pub end: u32,
}

impl PlaceTable {
    /// The place of a paragraph; past the last one the number after the last place.
    pub fn place_of(&self, number: u32) -> u32
        ensures { result ≡ place_at self.now.places.items self.now.end number }
    {
        match self.places.get(number as usize) {
            None => self.end,
            Some(place) => *place,
        }
    }
}

/// Numbers places: each paragraph, and after it its statements in text order, nested ones after the
/// statement that holds them.
pub fn layout_of(alloc: Global, program: &Program) -> Result<PlaceTable, NoMemory>
    requires { program_places program.now < 2 ^ 31 }
    ensures { IfOk result (λ made. IsLayout program.now made.places.items made.end) }
{
    let mut places = Vec::new(alloc);
    let mut place = 0u64;
    for paragraph in program.paragraphs.as_slice() {
        places.push(place as u32)?;
        place = place + 1 + paragraph_size(paragraph);
    }
    Ok(PlaceTable {
        places,
        end: place as u32,
    })
}
