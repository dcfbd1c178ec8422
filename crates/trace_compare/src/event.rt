//! An event of a step, as it lies in the machine that made it.

ghost use Rattle.std.specs.Prelude.{◌≡◌, ◌==◌, ◌&&◌};
ghost use Rattle.std.specs.Str.{bytes_eq};
ghost use Rattle.cob_act.specs.files.Work.{verb_seen};
ghost use Rattle.cobol_theory.specs.cobol_meaning.Acting.{verb_number};
ghost use Rattle.trace_compare.specs.Event.{event_of};

use cob_act::files::{FileDone, FileVerb};

/// An event of a step.
#[derive(Clone, Copy)]
pub enum Event<'a> {
    Displayed(&'a [u8]),
    /// An operation on a file, and the bytes that it moved.
    Filed(FileDone, &'a [u8]),
}

fn verb_number(verb: FileVerb) -> u8
    ensures { result ≡ verb_number (verb_seen verb) }
{
    match verb {
        FileVerb::Open => 1,
        FileVerb::Read => 2,
        FileVerb::Write => 3,
        FileVerb::Rewrite => 4,
        FileVerb::Close => 5,
    }
}

fn same_filed(done: FileDone, bytes: &[u8], other: FileDone, others: &[u8]) -> bool
    ensures { result ≡ verb_number (verb_seen done.verb) == verb_number (verb_seen other.verb)
        && (done.file == other.file && (done.status == other.status
        && bytes_eq bytes.now others.now)) }
{
    verb_number(done.verb) == verb_number(other.verb)
        && (done.file == other.file && (done.status == other.status && bytes == others))
}

/// Whether two events are the same.
#[tactic(auto, using(crate::proofs::EventLemmas::events_same))]
pub fn same_event(one: Event, other: Event) -> bool
    ensures { result ≡ bytes_eq (event_of one.entry) (event_of other.entry) }
{
    match one {
        Event::Displayed(bytes) => match other {
            Event::Displayed(others) => bytes == others,
            Event::Filed(_, _) => false,
        },
        Event::Filed(done, bytes) => match other {
            Event::Displayed(_) => false,
            Event::Filed(done_too, others) => same_filed(done, bytes, done_too, others),
        },
    }
}
