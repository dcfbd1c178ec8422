//! DISPLAY, MOVE and SET.

ghost use Rattle.std.specs.Prelude.{◌≡◌};
ghost use Rattle.parser_combinators.specs.Form as form;
ghost use Rattle.parser_combinators.specs.Reading.{Reads};
ghost use Rattle.cobol_grammar.specs.stmt_forms.Move as forms;

use cob_base::Items;
use cob_tree::{Operand, Place, Stmt};
use cobol_grammar::part_readers::{
    Parts, drop_items, drop_operands, drop_stmts, item_added, operand_added, stmt_added,
};
use parser_combinators::{Cursor, Unread};
use std::alloc::Global;

/// Reads an operand that is a value.
#[tactic(auto, unfolding(cobol_grammar::specs::stmt_forms::Move::value))]
pub fn value<P: Parts>(parts: &P, alloc: Global, cursor: &mut Cursor<'_>) -> Result<P::Side, Unread>
    ensures { Reads ((forms.value (P.parts parts.now)).reads cursor.old) result cursor.new }
{
    let side = parts.operand(alloc, cursor)?;
    cursor.note(parts.value_fault(&side));
    Ok(side)
}

#[tactic(auto, unfolding(cobol_grammar::specs::stmt_forms::Move::value_operand))]
fn value_operand<P: Parts>(
    parts: &P,
    alloc: Global,
    cursor: &mut Cursor<'_>,
) -> Result<Operand, Unread>
    ensures { Reads ((forms.value_operand (P.parts parts.now)).reads cursor.old) result cursor.new }
{
    let side = value(parts, alloc, cursor)?;
    Ok(parts.operand_of(side))
}

/// Reads one more operand.
fn operand_behind<P: Parts>(
    parts: &P,
    alloc: Global,
    cursor: &mut Cursor<'_>,
    found: Items<Operand>,
) -> Result<Items<Operand>, Unread>
    ensures { Reads ((form.added (forms.value_operand (P.parts parts.now)) found).reads cursor.old)
        result cursor.new }
{
    match value_operand(parts, alloc, cursor) {
        Ok(next) => Ok(operand_added(found, next)?),
        Err(stop) => {
            drop_operands(found);
            Err(stop)
        }
    }
}

fn operands_from<P: Parts>(
    parts: &P,
    alloc: Global,
    cursor: &mut Cursor<'_>,
    mut found: Items<Operand>,
) -> Result<Items<Operand>, Unread>
    ensures { Reads ((form.loop (P.parts parts.now).begins_operand
        (form.added (forms.value_operand (P.parts parts.now))) found).reads cursor.old)
        result cursor.new }
{
    'items: while parts.at_operand(cursor) {
        found = operand_behind(parts, alloc, cursor, found)?;
    }
    Ok(found)
}

fn value_operands<P: Parts>(
    parts: &P,
    alloc: Global,
    cursor: &mut Cursor<'_>,
) -> Result<Items<Operand>, Unread>
    ensures { Reads ((forms.value_operands (P.parts parts.now)).reads cursor.old)
        result cursor.new }
{
    let first = value_operand(parts, alloc, cursor)?;
    let found = operand_added(Items::new(alloc), first)?;
    operands_from(parts, alloc, cursor, found)
}

fn at_advancing(cursor: &Cursor<'_>) -> bool
    ensures { result ≡ form.is_next forms.begins_advancing cursor.now }
{
    cursor.sees(b"WITH") || cursor.sees(b"NO")
}

#[tactic(auto, unfolding(cobol_grammar::specs::stmt_forms::Move::no_advancing))]
fn no_advancing(cursor: &mut Cursor<'_>) -> Result<bool, Unread>
    ensures { Reads (forms.no_advancing.reads cursor.old) result cursor.new }
{
    cursor.maybe(b"WITH");
    cursor.key(b"NO")?;
    cursor.key(b"ADVANCING")?;
    Ok(false)
}

#[tactic(auto, unfolding(cobol_grammar::specs::stmt_forms::Move::advancing))]
fn advancing(cursor: &mut Cursor<'_>) -> Result<bool, Unread>
    ensures { Reads (forms.advancing.reads cursor.old) result cursor.new }
{
    if at_advancing(cursor) {
        no_advancing(cursor)
    } else {
        Ok(true)
    }
}

/// Reads DISPLAY.
#[tactic(auto, unfolding(cobol_grammar::specs::stmt_forms::Move::display_stmt))]
pub fn display_stmt<P: Parts>(
    parts: &P,
    alloc: Global,
    cursor: &mut Cursor<'_>,
) -> Result<Stmt, Unread>
    ensures { Reads ((forms.display_stmt (P.parts parts.now)).reads cursor.old) result cursor.new }
{
    cursor.key(b"DISPLAY")?;
    let items = value_operands(parts, alloc, cursor)?;
    match advancing(cursor) {
        Ok(advance) => Ok(Stmt::Display { items, advance }),
        Err(stop) => {
            drop_operands(items);
            Err(stop)
        }
    }
}

#[tactic(auto, unfolding(cobol_grammar::specs::stmt_forms::Move::receiver))]
fn receiver<P: Parts>(
    parts: &P,
    alloc: Global,
    cursor: &mut Cursor<'_>,
    from: &P::Side,
) -> Result<Place, Unread>
    ensures { Reads ((forms.receiver (P.parts parts.now) from.now).reads cursor.old)
        result cursor.new }
{
    let side = parts.reference(alloc, cursor)?;
    cursor.note(parts.value_fault(&side));
    cursor.note(parts.move_fault(from, &side));
    Ok(parts.place_of(side))
}

/// Reads one more item that takes what is moved.
fn receiver_behind<P: Parts>(
    parts: &P,
    alloc: Global,
    cursor: &mut Cursor<'_>,
    from: &P::Side,
    found: Items<Place>,
) -> Result<Items<Place>, Unread>
    ensures { Reads ((form.added (forms.receiver (P.parts parts.now) from.now) found).reads
        cursor.old) result cursor.new }
{
    match receiver(parts, alloc, cursor, from) {
        Ok(next) => Ok(item_added(found, next)?),
        Err(stop) => {
            drop_items(found);
            Err(stop)
        }
    }
}

fn receivers_from<P: Parts>(
    parts: &P,
    alloc: Global,
    cursor: &mut Cursor<'_>,
    from: &P::Side,
    mut found: Items<Place>,
) -> Result<Items<Place>, Unread>
    ensures { Reads ((form.loop (P.parts parts.now).is_name
        (form.added (forms.receiver (P.parts parts.now) from.now)) found).reads cursor.old)
        result cursor.new }
{
    'items: while parts.at_name(cursor) {
        found = receiver_behind(parts, alloc, cursor, from, found)?;
    }
    Ok(found)
}

fn receivers<P: Parts>(
    parts: &P,
    alloc: Global,
    cursor: &mut Cursor<'_>,
    from: &P::Side,
) -> Result<Items<Place>, Unread>
    ensures { Reads ((forms.receivers (P.parts parts.now) from.now).reads cursor.old)
        result cursor.new }
{
    let first = receiver(parts, alloc, cursor, from)?;
    let found = item_added(Items::new(alloc), first)?;
    receivers_from(parts, alloc, cursor, from, found)
}

/// Reads MOVE.
#[tactic(auto, unfolding(cobol_grammar::specs::stmt_forms::Move::move_stmt))]
pub fn move_stmt<P: Parts>(
    parts: &P,
    alloc: Global,
    cursor: &mut Cursor<'_>,
) -> Result<Stmt, Unread>
    ensures { Reads ((forms.move_stmt (P.parts parts.now)).reads cursor.old) result cursor.new }
{
    cursor.key(b"MOVE")?;
    let from = value(parts, alloc, cursor)?;
    cursor.key(b"TO")?;
    let to = receivers(parts, alloc, cursor, &from)?;
    let from = parts.operand_of(from);
    Ok(Stmt::Move { from, to })
}

#[tactic(auto, unfolding(cobol_grammar::specs::stmt_forms::Move::set_one))]
fn set_one<P: Parts>(parts: &P, alloc: Global, cursor: &mut Cursor<'_>) -> Result<Stmt, Unread>
    ensures { Reads ((forms.set_one (P.parts parts.now)).reads cursor.old) result cursor.new }
{
    let side = parts.reference(alloc, cursor)?;
    cursor.note(parts.condition_fault(&side));
    Ok(Stmt::SetTrue(parts.place_of(side)))
}

/// Reads one more name of a level 88.
fn set_behind<P: Parts>(
    parts: &P,
    alloc: Global,
    cursor: &mut Cursor<'_>,
    found: Items<Stmt>,
) -> Result<Items<Stmt>, Unread>
    ensures { Reads ((form.added (forms.set_one (P.parts parts.now)) found).reads cursor.old)
        result cursor.new }
{
    match set_one(parts, alloc, cursor) {
        Ok(next) => Ok(stmt_added(found, next)?),
        Err(stop) => {
            drop_stmts(found);
            Err(stop)
        }
    }
}

fn set_more<P: Parts>(
    parts: &P,
    alloc: Global,
    cursor: &mut Cursor<'_>,
    mut found: Items<Stmt>,
) -> Result<Items<Stmt>, Unread>
    ensures { Reads ((form.loop (P.parts parts.now).is_name
        (form.added (forms.set_one (P.parts parts.now))) found).reads cursor.old)
        result cursor.new }
{
    'items: while parts.at_name(cursor) {
        found = set_behind(parts, alloc, cursor, found)?;
    }
    Ok(found)
}

/// Reads SET, which is a statement for each of its names, and adds these to those that were found.
#[tactic(auto, unfolding(cobol_grammar::specs::stmt_forms::Move::set_stmts))]
pub fn set_stmts<P: Parts>(
    parts: &P,
    alloc: Global,
    cursor: &mut Cursor<'_>,
    found: Items<Stmt>,
) -> Result<Items<Stmt>, Unread>
    ensures { Reads ((forms.set_stmts (P.parts parts.now) found).reads cursor.old)
        result cursor.new }
{
    if let Err(stop) = cursor.key(b"SET") {
        drop_stmts(found);
        return Err(stop);
    }
    let first = match set_one(parts, alloc, cursor) {
        Ok(first) => first,
        Err(stop) => {
            drop_stmts(found);
            return Err(stop);
        }
    };
    let found = set_more(parts, alloc, cursor, stmt_added(found, first)?)?;
    if let Err(stop) = cursor.key(b"TO") {
        drop_stmts(found);
        return Err(stop);
    }
    match cursor.key(b"TRUE") {
        Ok(_) => Ok(found),
        Err(stop) => {
            drop_stmts(found);
            Err(stop)
        }
    }
}
