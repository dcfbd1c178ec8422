//! Which fault counts.

ghost use Rattle.std.specs.Prelude.{◌≡◌};
ghost use Rattle.parser_combinators.specs.Note.{earliest};
ghost use Rattle.declaration_checks.specs.Fault as faults;

use parser_combinators::{NameKind, Note, Position};

/// The one of two faults that counts.
pub fn first_of(early: Option<Note>, late: Option<Note>) -> Option<Note>
    ensures { result ≡ earliest early late }
{
    match early {
        None => late,
        Some(early) => match late {
            None => Some(early),
            Some(late) => {
                if late.precedes(early) {
                    Some(late)
                } else {
                    Some(early)
                }
            }
        },
    }
}

/// A fault of this kind, at this position.
pub fn fault_at(kind: NameKind, position: Position) -> Option<Note>
    ensures { result ≡ faults.fault_at kind position }
{
    Some(Note { kind, position })
}

/// The fault, unless something holds.
pub fn unless(holds: bool, kind: NameKind, position: Position) -> Option<Note>
    ensures { result ≡ faults.fault_unless holds kind position }
{
    if holds {
        None
    } else {
        fault_at(kind, position)
    }
}
