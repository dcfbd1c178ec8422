//! Ways in which a program ends.

ghost use Rattle.std.specs.Prelude.{◌≡◌};
ghost use Rattle.cobol_run.specs.Machine.{fault_seen};
ghost use Rattle.cobol_run.specs.declared.machine.Ending.TheVariants as endings;
ghost use Rattle.cobol_theory.specs.cobol_meaning.Acting.{abend_number};
ghost use Rattle.trace_compare.specs.Differing.{fault_eq, way_eq};
ghost use Rattle.trace_compare.specs.Event.{way_by};

use cob_tree::{Abend, FlowFault};
use cobol_run::Ending;

fn abend_number(abend: Abend) -> u16
    ensures { result ≡ abend_number abend }
{
    match abend {
        Abend::BadDigits => 0,
        Abend::OutOfRange => 1,
        Abend::Io(status) => u16::from(status) + 2,
    }
}

fn same_fault(one: FlowFault, other: FlowFault) -> bool
    ensures { result ≡ fault_eq (fault_seen one) (fault_seen other) }
{
    match one {
        FlowFault::Overlap(paragraph) => match other {
            FlowFault::Overlap(other) => paragraph == other,
            FlowFault::Reentry(_) => false,
        },
        FlowFault::Reentry(paragraph) => match other {
            FlowFault::Reentry(other) => paragraph == other,
            FlowFault::Overlap(_) => false,
        },
    }
}

fn is_stopped(ending: Ending) -> bool
    ensures { result ≡ way_eq (way_by endings.Stopped) (way_by ending) }
{
    match ending {
        Ending::Stopped => true,
        Ending::Abended(_) => false,
        Ending::Faulted(_) => false,
    }
}

fn is_abended(abend: Abend, ending: Ending) -> bool
    ensures { result ≡ way_eq (way_by (endings.Abended abend)) (way_by ending) }
{
    match ending {
        Ending::Stopped => false,
        Ending::Abended(other) => abend_number(abend) == abend_number(other),
        Ending::Faulted(_) => false,
    }
}

fn is_faulted(fault: FlowFault, ending: Ending) -> bool
    ensures { result ≡ way_eq (way_by (endings.Faulted fault)) (way_by ending) }
{
    match ending {
        Ending::Stopped => false,
        Ending::Abended(_) => false,
        Ending::Faulted(other) => same_fault(fault, other),
    }
}

/// Whether two programs ended in the same way.
pub fn same_ending(one: Ending, other: Ending) -> bool
    ensures { result ≡ way_eq (way_by one) (way_by other) }
{
    match one {
        Ending::Stopped => is_stopped(other),
        Ending::Abended(abend) => is_abended(abend, other),
        Ending::Faulted(fault) => is_faulted(fault, other),
    }
}
