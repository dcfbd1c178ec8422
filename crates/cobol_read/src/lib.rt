//! Reads the bytes of a source as its program, or gives the first reason why they aren't one.
//!
//! `read` goes through the limits of the source, the reference format, tokens, words that are left
//! out, the syntax of the whole program with the names that it declares itself, name faults, and
//! the limits of storage and paragraphs, in this order (ISO 1989:1985). In `specs/Reading`, `Reads`
//! says which bytes are which program, and `HasCause` why a source is refused, with a clause for
//! each refusal. `source_is_read_one_way` says that there is one answer.
#![tactic(auto)]

mod answer;
mod declarations;
mod laws;
mod left_out;
mod limit;
pub mod operand_reader;
pub mod operand_uses;
mod program;
mod refusal;
mod status;

ghost use Rattle.std.specs.Prelude.{◌≢◌, Ok, Err, IfOk, IfErr};
ghost use Rattle.cob_tree.specs.declared.program.Program as tree;
ghost use Rattle.cobol_read.specs.declared.refusal.ReadRefusal as refusal;
ghost use Rattle.cobol_read.specs.declared.refusal.ReadRefusal.TheVariants.{NoMemory as Memory};
ghost use Rattle.cobol_read.specs.Reading.{HasCause, IsAnswered, Reads};

use answer::answer_of;
use cob_tree::Program;
pub use laws::source_is_read_one_way;
pub use refusal::{ReadFault, ReadRefusal};
use std::alloc::Global;

/// The program that these bytes are, or why they aren't one: of several reasons the first in the
/// order of reading. The other error is out of memory.
pub fn read(alloc: Global, bytes: &[u8]) -> Result<Program, ReadRefusal>
    // what each answer means
    ensures found { IfOk result (Reads bytes.now) }
    ensures refused { IfErr result (HasCause bytes.now) }

    // and when it comes
    ensures only { (found : tree.Program) → Reads bytes.now found →
        IsAnswered (Ok found) result }
    ensures refuses { (refusal : refusal.ReadRefusal) → refusal ≢ Memory →
        HasCause bytes.now refusal → IsAnswered (Err refusal) result }
{
    answer_of(alloc, bytes)
}
