//! Subscripts.

ghost use Rattle.std.specs.Prelude.{◌≡◌};
ghost use Rattle.parser_combinators.specs.Form as form;
ghost use Rattle.parser_combinators.specs.Reading.{Reads};
ghost use Rattle.cobol_grammar.specs.expr_forms.Subscript as subscripts;

use crate::actions::{
    bare_sub, drop_place, drop_subs, found_fault, item_sub, kind_of, number_sub, place_of,
    sub_added, whole_fault_at,
};
use crate::reference::qualifiers;
use cob_base::Items;
use cob_tree::{Place, Sub};
use parser_combinators::words::{name, sees_digits, sees_name};
use parser_combinators::{Cursor, Unread};
use std::alloc::Global;
use symbol_tables::data_names::NameTable;

fn at_sub(cursor: &Cursor<'_>) -> bool
    ensures { result ≡ form.is_next subscripts.begins_sub cursor.now }
{
    cursor.sees_mark(b'+') || sees_digits(cursor) || sees_name(cursor)
}

#[tactic(auto, unfolding(cobol_grammar::specs::expr_forms::Subscript::plus_sub_form))]
fn plus_sub_form(alloc: Global, cursor: &mut Cursor<'_>) -> Result<Sub, Unread>
    ensures { Reads (subscripts.plus_sub_form.reads cursor.old) result cursor.new }
{
    cursor.mark(b'+')?;
    let (digits, _) = cursor.digits(alloc)?;
    Ok(number_sub(digits))
}

#[tactic(auto, unfolding(cobol_grammar::specs::expr_forms::Subscript::number_sub_form))]
fn number_sub_form(alloc: Global, cursor: &mut Cursor<'_>) -> Result<Sub, Unread>
    ensures { Reads (subscripts.number_sub_form.reads cursor.old) result cursor.new }
{
    let (digits, _) = cursor.digits(alloc)?;
    Ok(number_sub(digits))
}

#[tactic(auto, unfolding(cobol_grammar::specs::expr_forms::Subscript::item_sub_by))]
fn item_sub_by(
    alloc: Global,
    cursor: &mut Cursor<'_>,
    byte: u8,
    negative: bool,
    place: Place,
) -> Result<Sub, Unread>
    ensures { Reads ((subscripts.item_sub_by byte negative place).reads cursor.old)
        result cursor.new }
{
    if let Err(stop) = cursor.mark(byte) {
        drop_place(place);
        return Err(stop);
    }
    match cursor.digits(alloc) {
        Ok((digits, _)) => Ok(item_sub(alloc, place, negative, digits)?),
        Err(stop) => {
            drop_place(place);
            Err(stop)
        }
    }
}

#[tactic(auto, unfolding(cobol_grammar::specs::expr_forms::Subscript::item_sub_behind))]
fn item_sub_behind(alloc: Global, cursor: &mut Cursor<'_>, place: Place) -> Result<Sub, Unread>
    ensures { Reads ((subscripts.item_sub_behind place).reads cursor.old) result cursor.new }
{
    if cursor.sees_mark(b'+') {
        item_sub_by(alloc, cursor, b'+', false, place)
    } else if cursor.sees_mark(b'-') {
        item_sub_by(alloc, cursor, b'-', true, place)
    } else {
        Ok(bare_sub(alloc, place)?)
    }
}

#[tactic(auto, unfolding(cobol_grammar::specs::expr_forms::Subscript::item_sub_form))]
fn item_sub_form(alloc: Global, cursor: &mut Cursor<'_>, names: &NameTable) -> Result<Sub, Unread>
    ensures { Reads ((subscripts.item_sub_form names.now).reads cursor.old) result cursor.new }
{
    let (word, position) = name(cursor)?;
    let of = qualifiers(alloc, cursor)?;
    let found = names.look(&word, of.as_slice());
    cursor.note(found_fault(found, 0, false, position));
    cursor.note(whole_fault_at(position, kind_of(found)));
    item_sub_behind(alloc, cursor, place_of(found, of, Items::new(alloc), None))
}

#[tactic(auto, unfolding(cobol_grammar::specs::expr_forms::Subscript::sub))]
fn sub(alloc: Global, cursor: &mut Cursor<'_>, names: &NameTable) -> Result<Sub, Unread>
    ensures { Reads ((subscripts.sub names.now).reads cursor.old) result cursor.new }
{
    if cursor.sees_mark(b'+') {
        plus_sub_form(alloc, cursor)
    } else if sees_digits(cursor) {
        number_sub_form(alloc, cursor)
    } else {
        item_sub_form(alloc, cursor, names)
    }
}

/// Reads one more subscript.
fn sub_behind(
    alloc: Global,
    cursor: &mut Cursor<'_>,
    names: &NameTable,
    subs: Items<Sub>,
) -> Result<Items<Sub>, Unread>
    ensures { Reads ((form.added (subscripts.sub names.now) subs).reads cursor.old)
        result cursor.new }
{
    match sub(alloc, cursor, names) {
        Ok(next) => Ok(sub_added(subs, next)?),
        Err(stop) => {
            drop_subs(subs);
            Err(stop)
        }
    }
}

/// Reads further subscripts, as many as there are.
pub fn more_subs(
    alloc: Global,
    cursor: &mut Cursor<'_>,
    names: &NameTable,
    first: Items<Sub>,
) -> Result<Items<Sub>, Unread>
    ensures { Reads ((subscripts.more_subs names.now first).reads cursor.old) result cursor.new }
{
    let mut subs = first;
    'subs: while at_sub(cursor) {
        subs = sub_behind(alloc, cursor, names, subs)?;
    }
    Ok(subs)
}
