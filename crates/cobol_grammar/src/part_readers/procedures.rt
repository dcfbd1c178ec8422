//! Names of procedures.

ghost use Rattle.std.specs.Prelude.{◌≡◌};
ghost use Rattle.parser_combinators.specs.Form as form;
ghost use Rattle.parser_combinators.specs.Reading.{Reads};
ghost use Rattle.cobol_grammar.specs.stmt_forms.Jump as forms;

use crate::part_readers::parts::Parts;
use cobol_lex::TokenKind;
use parser_combinators::{Cursor, NameKind, Note, Position, Unread};
use std::alloc::Global;

/// Whether digits are next.
pub fn at_digits(cursor: &Cursor<'_>) -> bool
    ensures { result ≡ form.is_next forms.is_digits cursor.now }
{
    match cursor.peek() {
        Some(TokenKind::Digits(_)) => true,
        _ => false,
    }
}

/// Whether the name of a procedure is next.
#[tactic(auto, unfolding(crate::specs::stmt_forms::Jump::begins_procedure))]
pub fn at_procedure<P: Parts>(parts: &P, cursor: &Cursor<'_>) -> bool
    ensures { result ≡ form.is_next (forms.begins_procedure (P.parts parts.now)) cursor.now }
{
    parts.at_procedure_word(cursor) || at_digits(cursor)
}

/// The entry and exit of the procedure with this name; both 0, and a fault noted, where there is
/// none.
#[tactic(auto, unfolding(crate::specs::stmt_forms::Jump::procedure_named))]
pub fn procedure_named<P: Parts>(
    parts: &P,
    cursor: &mut Cursor<'_>,
    name: &[u8],
    position: Position,
) -> Result<(u32, u32), Unread>
    ensures { Reads ((forms.procedure_named (P.parts parts.now) name.now position).reads cursor.old)
        result cursor.new }
{
    match parts.procedure_of(name) {
        None => {
            cursor.note(Some(Note {
                kind: NameKind::Unknown,
                position,
            }));
            Ok((0, 0))
        }
        Some(span) => Ok(span),
    }
}

#[tactic(auto, unfolding(crate::specs::stmt_forms::Jump::word_procedure))]
fn word_procedure<P: Parts>(parts: &P, cursor: &mut Cursor<'_>) -> Result<(u32, u32), Unread>
    ensures { Reads ((forms.word_procedure (P.parts parts.now)).reads cursor.old)
        result cursor.new }
{
    let (name, position) = cursor.word()?;
    procedure_named(parts, cursor, name.as_slice(), position)
}

#[tactic(auto, unfolding(crate::specs::stmt_forms::Jump::digits_procedure))]
fn digits_procedure<P: Parts>(
    parts: &P,
    alloc: Global,
    cursor: &mut Cursor<'_>,
) -> Result<(u32, u32), Unread>
    ensures { Reads ((forms.digits_procedure (P.parts parts.now)).reads cursor.old)
        result cursor.new }
{
    let (name, position) = cursor.digits(alloc)?;
    procedure_named(parts, cursor, name.as_slice(), position)
}

/// Reads the name of a procedure, and gives it with its entry and exit.
#[tactic(auto, unfolding(crate::specs::stmt_forms::Jump::procedure))]
pub fn procedure<P: Parts>(
    parts: &P,
    alloc: Global,
    cursor: &mut Cursor<'_>,
) -> Result<(u32, u32), Unread>
    ensures { Reads ((forms.procedure (P.parts parts.now)).reads cursor.old) result cursor.new }
{
    if parts.at_procedure_word(cursor) {
        word_procedure(parts, cursor)
    } else {
        digits_procedure(parts, alloc, cursor)
    }
}
