//! The item of a FILE STATUS clause.

ghost use Rattle.std.specs.Prelude.{◌≡◌, None, slice_get, if◌then◌else◌};
ghost use Rattle.parser_combinators.specs.Reading.{Reads};
ghost use Rattle.cobol_grammar.specs.expr_forms.Fault.{usage};
ghost use Rattle.cobol_read.specs.Status as statuses;
ghost use Rattle.cobol_read.specs.StatusLaws as laws;

use crate::operand_uses::place_of;
use cob_tree::{Entry, Picture, Place};
use cobol_grammar::expr_forms::ValueKind;
use data_parse::StatusReader;
use expr_parse::data_reference;
use parser_combinators::{Cursor, NameKind, Note, Position, Unread};
use std::alloc::Global;
use symbol_tables::data_names::NameTable;

/// Reads references to status items of a program with these names and entries.
#[derive(Drop)]
pub struct StatusOf<'a> {
    pub names: &'a NameTable,
    pub entries: &'a [Entry],
}

fn is_two(picture: Option<Picture>) -> bool
    ensures { result ≡ statuses.is_two picture }
{
    match picture {
        Some(Picture::Any(length)) => length == 2,
        _ => false,
    }
}

fn holds_two(entries: &[Entry], item: u32) -> bool
    ensures { result ≡ statuses.holds_two (slice_get entries.now item) }
{
    match entries.get(item as usize) {
        None => false,
        Some(entry) => is_two(entry.picture),
    }
}

fn is_status(entries: &[Entry], place: &Place) -> bool
    ensures { result ≡ statuses.is_status entries.now place.now }
{
    holds_two(entries, place.item) && place.window.is_none()
}

fn unless(holds: bool, position: Position) -> Option<Note>
    ensures { result ≡ (if holds then None else usage position) }
{
    if holds {
        None
    } else {
        Some(Note {
            kind: NameKind::Usage,
            position,
        })
    }
}

fn kind_fault(kind: ValueKind, is_status: bool, position: Position) -> Option<Note>
    ensures { result ≡ statuses.kind_fault kind is_status position }
{
    match kind {
        ValueKind::Unknown => None,
        ValueKind::Text => unless(is_status, position),
        _ => unless(false, position),
    }
}

/// Takes a reference to a status item.
#[tactic(auto, unfolding(crate::specs::Status::status))]
fn status(
    alloc: Global,
    cursor: &mut Cursor<'_>,
    names: &NameTable,
    entries: &[Entry],
) -> Result<Place, Unread>
    ensures { Reads ((statuses.status names.now entries.now).reads cursor.old) result cursor.new }
{
    let side = data_reference(alloc, cursor, names)?;
    let (kind, position) = (side.kind, side.position);
    let place = place_of(alloc, side.what);
    cursor.note(kind_fault(kind, is_status(entries, &place), position));
    Ok(place)
}

impl<'a> StatusReader for StatusOf<'a> {
    ghost form = { λ r. statuses.status r.names.now r.entries.now };

    ghost lawful = { λ r. laws.status r.names.now r.entries.now };

    fn status(&self, alloc: Global, cursor: &mut Cursor<'_>) -> Result<Place, Unread> {
        status(alloc, cursor, self.names, self.entries)
    }
}
