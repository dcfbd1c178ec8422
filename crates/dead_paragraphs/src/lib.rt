//! The paragraphs of a program to which no flow path comes.
//!
//! `dead` gives them by the program's summary, whose meaning is in `pending_returns`;
//! `specs/Dead.antt` says which they are.
#![tactic(auto)]

ghost use Rattle.std.specs.Prelude.{◌≡◌, Bool, not, map, IfOk};
ghost use Rattle.control_flow_theory.specs.language.Language.{Chooser, Program};
ghost use Rattle.pending_returns.specs.Summary.{IsSummary};
ghost use Rattle.dead_paragraphs.specs.Dead.{AreDropped};

use cob_base::{Items, NoMemory};
use pending_returns::{Summary, lists};
use std::alloc::Global;

/// The flags, each negated.
fn turned_round(alloc: Global, flags: &[bool]) -> Result<Vec<bool>, NoMemory>
    ensures { IfOk result (λ turned. turned.items ≡ map not flags.now) }
{
    let turned: Vec<bool> = flags.iter().map(|flag| !*flag).collect(alloc)?;
    Ok(turned)
}

/// The numbers of the paragraphs to which no flow path comes, in ascending order.
pub fn dead(alloc: Global, summary: &Summary) -> Result<Items<u32>, NoMemory>
    ensures { IfOk result (λ numbers. (never_first : Chooser → Bool) (program : Program) →
        IsSummary never_first program summary.now → AreDropped never_first program numbers) }
{
    let missed = turned_round(alloc, summary.reached.as_slice())?;
    let numbers = lists(alloc, missed.as_slice())?;
    Ok(numbers)
}
