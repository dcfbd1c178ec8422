//! Whether a program is structured: paragraphs that perform only later ones, without a jump.
//!
//! `specs/Structured.antt` defines this by the control of a program. The tests walk the tree itself
//! without allocating; `proofs/` shows that they are those of control.
#![tactic(auto)]

ghost use Rattle.std.specs.Prelude.{◌↔◌, IsTrue};
ghost use Rattle.struct_form.specs.Structured.{IsStructured};

mod nested;
mod performed;
mod stops;

use cob_tree::Program;
use nested::paragraphs_nest;
use performed::each_performed;
use stops::first_stops;

/// Whether the program is structured.
#[tactic(auto, using(crate::proofs::Structured::structured_nests, crate::proofs::Structured::structured_stops))]
pub fn is_structured(program: &Program) -> bool
    ensures { IsTrue result ↔ IsStructured program.now }
{
    let paragraphs = program.paragraphs.as_slice();
    if !paragraphs_nest(paragraphs, paragraphs.len()) {
        return false;
    }
    if !first_stops(paragraphs) {
        return false;
    }
    each_performed(paragraphs)
}
