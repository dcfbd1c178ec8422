//! Programs full of jumps, one for each number, to try restructuring on.
//!
//! `generate` gives exactly the program of `specs/Generated`, which defines it part by part: the
//! sequence of numbers, the names and the jumps. `laws` has that no flow path of one comes to a
//! fault; no law is about what such a program shows when it runs.
#![tactic(auto)]

ghost use Rattle.std.specs.Prelude.{◌<◌, ◌≤◌};
ghost use Rattle.cob_base.specs.Answers.{Makes};
ghost use Rattle.program_gen.specs.Generated.{generated};

mod group;
pub mod laws;
mod main_paragraph;
mod parts;

use crate::group::push_groups;
use crate::main_paragraph::main_of;
use crate::parts::counter_entry;
use cob_base::{Items, NoMemory};
use cob_tree::Program;
use cob_words::numbered::numbered;
use std::alloc::Global;

/// The program of a number: so many groups of four paragraphs, three of which jump within the
/// group.
pub fn generate(alloc: Global, n: u32) -> Result<Program, NoMemory>
    requires low { 1 ≤ n }
    requires high { n ≤ 1249 }
    ensures { Makes (generated n) result }
{
    let name = numbered(alloc, b"GEN-", n)?;
    let mut entries = Items::new(alloc);
    entries.push(counter_entry(alloc)?)?;
    let mut paragraphs = Items::new(alloc);
    paragraphs.push(main_of(alloc, n)?)?;
    push_groups(alloc, &mut paragraphs, n)?;
    Ok(Program {
        name,
        files: Items::new(alloc),
        entries,
        paragraphs,
    })
}
