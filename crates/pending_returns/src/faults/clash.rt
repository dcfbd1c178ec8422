//! A pending range, and a level below it that faults on its end.

ghost use Rattle.std.specs.Prelude.{◌≡◌, ◌<◌, length, IfOk, MatchOption};
ghost use Rattle.control_flow_theory.specs.language.Control.{control_of};
ghost use Rattle.program_points.specs.paths.Flow.{IsFaulty};
ghost use Rattle.program_points.specs.numbering.Kind.{never_first_of};
ghost use Rattle.pending_returns.specs.levels.Reach.{IsMarked};
ghost use Rattle.pending_returns.specs.Summary.{IsSummary};
ghost use Rattle.pending_returns.specs.Tabled.{CallsBelow};
ghost use Rattle.pending_returns.specs.faults.Clash.{IsClash, HasClash, NoneBelow, NoneFrom, NoClash};

use crate::faults::fault::fault_at;
use crate::faults::leading::callees_from;
use crate::levels::Reach;
use crate::{RangeFacts, Summary, number_of};
use cob_base::NoMemory;
use cob_tree::{FlowFault, Program};
use std::alloc::Global;

/// A range, one to which calls lead from it, and what the level of that one does to its end.
#[derive(Debug, Clone, Copy)]
pub struct Clash {
    pub base: u32,
    pub last: u32,
    pub fault: FlowFault,
}

/// A level that faults on the end of this range and to which calls lead from it; none where there
/// is none.
pub fn clash_below(
    reach: &mut Reach,
    levels: &[RangeFacts],
    base: u32,
    end: u32,
) -> Result<Option<Clash>, NoMemory>
    requires marked { IsMarked reach.old.places.items reach.old.marks.items }
    requires size { length reach.old.marks.items ≡ length levels.now }
    requires base { base < length levels.now }
    requires known { CallsBelow (length levels.now) levels.now }
    ensures found { IfOk result (λ found. MatchOption found (NoneBelow levels.now base end)
        (λ clash. IsClash levels.now base end clash)) }
    ensures marked { IsMarked reach.new.places.items reach.new.marks.items }
    ensures size { length reach.new.marks.items ≡ length levels.now }
{
    callees_from(reach, levels, base)?;
    for at in 0..reach.places.len() {
        let last = reach.places[at];
        match fault_at(levels, &levels[last as usize], end) {
            Some(fault) => return Ok(Some(Clash { base, last, fault })),
            None => {}
        }
    }
    Ok(None)
}

/// The same of a range that may have no end, as main.
pub fn clash_from(
    reach: &mut Reach,
    levels: &[RangeFacts],
    base: u32,
) -> Result<Option<Clash>, NoMemory>
    requires marked { IsMarked reach.old.places.items reach.old.marks.items }
    requires size { length reach.old.marks.items ≡ length levels.now }
    requires base { base < length levels.now }
    requires known { CallsBelow (length levels.now) levels.now }
    ensures found { IfOk result (λ found. MatchOption found (NoneFrom levels.now base)
        (λ clash. HasClash levels.now clash)) }
    ensures marked { IsMarked reach.new.places.items reach.new.marks.items }
    ensures size { length reach.new.marks.items ≡ length levels.now }
{
    let facts = &levels[base as usize];
    match facts.range.exit {
        Some(end) => clash_below(reach, levels, base, end),
        None => Ok(None),
    }
}

/// A level that faults on the end of some range from which calls lead to it; none where there is
/// none.
pub fn clash_of(alloc: Global, levels: &[RangeFacts]) -> Result<Option<Clash>, NoMemory>
    requires known { CallsBelow (length levels.now) levels.now }
    ensures { IfOk result (λ found. MatchOption found (NoClash levels.now)
        (λ clash. HasClash levels.now clash)) }
{
    let mut reach = Reach::new(alloc, levels.len())?;
    for number in 0..levels.len() {
        let base = number_of(number)?;
        match clash_from(&mut reach, levels, base)? {
            Some(clash) => return Ok(Some(clash)),
            None => {}
        }
    }
    Ok(None)
}

/// A clash in a program that has this summary: there is one exactly where the program is faulty.
pub fn clash_in(
    alloc: Global,
    program: &Program,
    summary: &Summary,
) -> Result<Option<Clash>, NoMemory>
    requires { IsSummary (never_first_of program.now.files) (control_of program.now) summary.now }
    ensures faulty { IfOk result (λ found. MatchOption found
        (IsFaulty (never_first_of program.now.files) (control_of program.now) → ⊥)
        (λ clash. IsFaulty (never_first_of program.now.files) (control_of program.now))) }
    ensures clash { IfOk result (λ found. MatchOption found (NoClash summary.now.ranges)
        (λ clash. HasClash summary.now.ranges clash)) }
{
    clash_of(alloc, summary.ranges.as_slice())
}
