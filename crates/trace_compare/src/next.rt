//! What is next of two programs that run beside each other.

ghost use Rattle.std.specs.Prelude.{◌≡◌};
ghost use Rattle.trace_compare.specs.Event.{way_if};
ghost use Rattle.trace_compare.specs.Next.{behind_ended, both_without};

use crate::ending::same_ending;
use cobol_run::Ending;

/// What is next, where the next events of both differ, if both have one.
#[derive(Clone, Copy)]
pub enum Decision {
    /// A step of the first program.
    First,
    /// A step of the second program.
    Second,
    Same,
    Differ,
    Budget,
}

/// What is next where neither has one more event.
pub fn both_without(first: Option<Ending>, second: Option<Ending>) -> Decision
    ensures { result ≡ both_without (way_if first) (way_if second) }
{
    match first {
        None => Decision::Budget,
        Some(one) => match second {
            None => Decision::Budget,
            Some(other) => {
                if same_ending(one, other) {
                    Decision::Same
                } else {
                    Decision::Differ
                }
            }
        },
    }
}

/// What is next where the other program has one more event.
pub fn behind_ended(ended: Option<Ending>) -> Decision
    ensures { result ≡ behind_ended (way_if ended) }
{
    match ended {
        None => Decision::Budget,
        Some(_) => Decision::Differ,
    }
}
