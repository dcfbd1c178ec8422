//! PERFORM up to the statements that it holds.

ghost use Rattle.std.specs.Prelude.{◌≡◌};
ghost use Rattle.parser_combinators.specs.Form as form;
ghost use Rattle.parser_combinators.specs.Reading.{Reads};
ghost use Rattle.cobol_grammar.specs.stmt_forms.Arithmetic as arithmetic;
ghost use Rattle.cobol_grammar.specs.stmt_forms.Loop as forms;
ghost use Rattle.cobol_grammar.specs.stmt_forms.Stmt as all;
ghost use Rattle.stmt_head_parse.specs.perform.Step as steps;

use crate::heads::{at_thru, enter_level, thru};
use cob_base::{Boxed, Text, Word};
use cob_tree::{Control, Operand, Place, Stmt};
use cobol_grammar::part_readers::{
    Parts, at_digits, drop_item, drop_loop_control, drop_operand, number_operand, procedure,
    procedure_named,
};
use cobol_grammar::stmt_forms::PerformHead;
use parser_combinators::{Cursor, Position, Unread, Why};
use std::alloc::Global;

fn at_testing(cursor: &Cursor<'_>) -> bool
    ensures { result ≡ form.is_next forms.begins_testing cursor.now }
{
    cursor.sees(b"WITH") || cursor.sees(b"TEST")
}

#[tactic(auto, unfolding(cobol_grammar::specs::stmt_forms::Loop::begins_until))]
fn at_until(cursor: &Cursor<'_>) -> bool
    ensures { result ≡ form.is_next forms.begins_until cursor.now }
{
    at_testing(cursor) || (cursor.sees(b"VARYING") || cursor.sees(b"UNTIL"))
}

#[tactic(auto, unfolding(cobol_grammar::specs::stmt_forms::Loop::after_word))]
fn after_word(cursor: &mut Cursor<'_>) -> Result<bool, Unread>
    ensures { Reads (forms.after_word.reads cursor.old) result cursor.new }
{
    if cursor.sees(b"BEFORE") {
        cursor.key(b"BEFORE")?;
        Ok(false)
    } else {
        cursor.key(b"AFTER")?;
        Ok(true)
    }
}

#[tactic(auto, unfolding(cobol_grammar::specs::stmt_forms::Loop::test_words))]
fn test_words(cursor: &mut Cursor<'_>) -> Result<bool, Unread>
    ensures { Reads (forms.test_words.reads cursor.old) result cursor.new }
{
    cursor.maybe(b"WITH");
    cursor.key(b"TEST")?;
    after_word(cursor)
}

#[tactic(auto, unfolding(cobol_grammar::specs::stmt_forms::Loop::test_part))]
fn test_part(cursor: &mut Cursor<'_>) -> Result<bool, Unread>
    ensures { Reads (forms.test_part.reads cursor.old) result cursor.new }
{
    if at_testing(cursor) {
        test_words(cursor)
    } else {
        Ok(false)
    }
}

#[tactic(auto, unfolding(cobol_grammar::specs::stmt_forms::Loop::until_cond))]
fn until_cond<P: Parts>(
    parts: &P,
    alloc: Global,
    cursor: &mut Cursor<'_>,
    after: bool,
) -> Result<(Control, bool), Unread>
    ensures { Reads ((forms.until_cond (P.parts parts.now) after).reads cursor.old)
        result cursor.new }
{
    cursor.key(b"UNTIL")?;
    let (cond, pending_not) = parts.cond(alloc, cursor)?;
    Ok((Control::Until { after, cond }, pending_not))
}

#[tactic(auto, unfolding(cobol_grammar::specs::stmt_forms::Loop::varied))]
fn varied<P: Parts>(
    parts: &P,
    alloc: Global,
    cursor: &mut Cursor<'_>,
) -> Result<Boxed<Place>, Unread>
    ensures { Reads ((forms.varied (P.parts parts.now)).reads cursor.old) result cursor.new }
{
    let side = parts.reference(alloc, cursor)?;
    cursor.note(parts.number_fault(&side));
    Ok(Boxed::new(alloc, parts.place_of(side))?)
}

/// Reads an operand of VARYING that is a number.
fn varying_number<P: Parts>(
    parts: &P,
    alloc: Global,
    cursor: &mut Cursor<'_>,
) -> Result<Boxed<Operand>, Unread>
    ensures { Reads ((arithmetic.number_operand (P.parts parts.now)).reads cursor.old)
        result cursor.new }
{
    let operand = number_operand(parts, alloc, cursor)?;
    Ok(Boxed::new(alloc, operand)?)
}

fn varying_all<P: Parts>(
    parts: &P,
    alloc: Global,
    cursor: &mut Cursor<'_>,
    after: bool,
    item: Boxed<Place>,
    from: Boxed<Operand>,
    by: Boxed<Operand>,
) -> Result<(Control, bool), Unread>
    ensures { Reads ((steps.varying_all (P.parts parts.now) after item from by).reads cursor.old)
        result cursor.new }
{
    match parts.cond(alloc, cursor) {
        Ok((cond, pending_not)) => {
            let control = Control::Varying {
                after,
                item,
                from,
                by,
                cond,
            };
            Ok((control, pending_not))
        }
        Err(stop) => {
            drop_item(item.into_inner());
            drop_operand(from.into_inner());
            drop_operand(by.into_inner());
            Err(stop)
        }
    }
}

fn varying_until<P: Parts>(
    parts: &P,
    alloc: Global,
    cursor: &mut Cursor<'_>,
    after: bool,
    item: Boxed<Place>,
    from: Boxed<Operand>,
    by: Boxed<Operand>,
) -> Result<(Control, bool), Unread>
    ensures { Reads ((steps.varying_until (P.parts parts.now) after item from by).reads cursor.old)
        result cursor.new }
{
    match cursor.key(b"UNTIL") {
        Ok(_) => varying_all(parts, alloc, cursor, after, item, from, by),
        Err(stop) => {
            drop_item(item.into_inner());
            drop_operand(from.into_inner());
            drop_operand(by.into_inner());
            Err(stop)
        }
    }
}

fn varying_by<P: Parts>(
    parts: &P,
    alloc: Global,
    cursor: &mut Cursor<'_>,
    after: bool,
    item: Boxed<Place>,
    from: Boxed<Operand>,
) -> Result<(Control, bool), Unread>
    ensures { Reads ((steps.varying_by (P.parts parts.now) after item from).reads cursor.old)
        result cursor.new }
{
    match cursor.key(b"BY") {
        Ok(_) => match varying_number(parts, alloc, cursor) {
            Ok(by) => varying_until(parts, alloc, cursor, after, item, from, by),
            Err(stop) => {
                drop_item(item.into_inner());
                drop_operand(from.into_inner());
                Err(stop)
            }
        },
        Err(stop) => {
            drop_item(item.into_inner());
            drop_operand(from.into_inner());
            Err(stop)
        }
    }
}

fn varying_from<P: Parts>(
    parts: &P,
    alloc: Global,
    cursor: &mut Cursor<'_>,
    after: bool,
    item: Boxed<Place>,
) -> Result<(Control, bool), Unread>
    ensures { Reads ((steps.varying_from (P.parts parts.now) after item).reads cursor.old)
        result cursor.new }
{
    match cursor.key(b"FROM") {
        Ok(_) => match varying_number(parts, alloc, cursor) {
            Ok(from) => varying_by(parts, alloc, cursor, after, item, from),
            Err(stop) => {
                drop_item(item.into_inner());
                Err(stop)
            }
        },
        Err(stop) => {
            drop_item(item.into_inner());
            Err(stop)
        }
    }
}

#[tactic(auto, unfolding(cobol_grammar::specs::stmt_forms::Loop::varying_cond))]
fn varying_cond<P: Parts>(
    parts: &P,
    alloc: Global,
    cursor: &mut Cursor<'_>,
    after: bool,
) -> Result<(Control, bool), Unread>
    ensures { Reads ((forms.varying_cond (P.parts parts.now) after).reads cursor.old)
        result cursor.new }
{
    cursor.key(b"VARYING")?;
    let item = varied(parts, alloc, cursor)?;
    varying_from(parts, alloc, cursor, after, item)
}

#[tactic(auto, unfolding(cobol_grammar::specs::stmt_forms::Loop::until_control))]
fn until_control<P: Parts>(
    parts: &P,
    alloc: Global,
    cursor: &mut Cursor<'_>,
) -> Result<(Control, bool), Unread>
    ensures { Reads ((forms.until_control (P.parts parts.now)).reads cursor.old) result cursor.new }
{
    let after = test_part(cursor)?;
    if cursor.sees(b"VARYING") {
        varying_cond(parts, alloc, cursor, after)
    } else {
        until_cond(parts, alloc, cursor, after)
    }
}

#[tactic(auto, unfolding(cobol_grammar::specs::stmt_forms::Loop::times_behind))]
fn times_behind<P: Parts>(
    parts: &P,
    cursor: &mut Cursor<'_>,
    side: P::Side,
) -> Result<Control, Unread>
    ensures { Reads ((forms.times_behind (P.parts parts.now) side).reads cursor.old)
        result cursor.new }
{
    cursor.note(parts.whole_fault(&side));
    cursor.key(b"TIMES")?;
    Ok(Control::Times(parts.operand_of(side)))
}

#[tactic(auto, unfolding(cobol_grammar::specs::stmt_forms::Loop::times_control))]
fn times_control<P: Parts>(
    parts: &P,
    alloc: Global,
    cursor: &mut Cursor<'_>,
) -> Result<Control, Unread>
    ensures { Reads ((forms.times_control (P.parts parts.now)).reads cursor.old) result cursor.new }
{
    let side = parts.operand(alloc, cursor)?;
    times_behind(parts, cursor, side)
}

#[tactic(auto, unfolding(cobol_grammar::specs::stmt_forms::Loop::inline))]
fn inline(cursor: &Cursor<'_>, control: (Control, bool)) -> Result<PerformHead, Unread>
    ensures { Reads ((forms.inline control).reads cursor.now) result cursor.now }
{
    let (control, pending_not) = control;
    if pending_not {
        drop_loop_control(control);
        Err(Unread::Stop(Why::Syntax))
    } else {
        Ok(PerformHead::Inline(control))
    }
}

#[tactic(auto, unfolding(cobol_grammar::specs::stmt_forms::Loop::until_head))]
fn until_head<P: Parts>(
    parts: &P,
    alloc: Global,
    cursor: &mut Cursor<'_>,
    levels: u32,
) -> Result<PerformHead, Unread>
    ensures { Reads
        ((forms.until_head (P.parts parts.now) (all.enter_level levels)).reads cursor.old)
        result cursor.new }
{
    enter_level(cursor, levels)?;
    let control = until_control(parts, alloc, cursor)?;
    inline(cursor, control)
}

#[tactic(auto, unfolding(cobol_grammar::specs::stmt_forms::Loop::times_head))]
fn times_head<P: Parts>(
    parts: &P,
    cursor: &mut Cursor<'_>,
    side: P::Side,
) -> Result<PerformHead, Unread>
    ensures { Reads ((forms.times_head (P.parts parts.now) side).reads cursor.old)
        result cursor.new }
{
    let control = times_behind(parts, cursor, side)?;
    Ok(PerformHead::Inline(control))
}

#[tactic(auto, unfolding(cobol_grammar::specs::stmt_forms::Loop::item_head))]
fn item_head<P: Parts>(
    parts: &P,
    alloc: Global,
    cursor: &mut Cursor<'_>,
    levels: u32,
    name: &Word,
    position: Position,
) -> Result<PerformHead, Unread>
    ensures { Reads ((forms.item_head (P.parts parts.now) (all.enter_level levels) name.now
        position).reads cursor.old)
        result cursor.new }
{
    enter_level(cursor, levels)?;
    let side = parts.reference_behind(alloc, cursor, name, position)?;
    times_head(parts, cursor, side)
}

#[tactic(auto, unfolding(cobol_grammar::specs::stmt_forms::Loop::digits_head))]
fn digits_head<P: Parts>(
    parts: &P,
    cursor: &mut Cursor<'_>,
    levels: u32,
    digits: Text,
    position: Position,
) -> Result<PerformHead, Unread>
    ensures { Reads ((forms.digits_head (P.parts parts.now) (all.enter_level levels) digits
        position).reads cursor.old)
        result cursor.new }
{
    enter_level(cursor, levels)?;
    let side = parts.digits_side(digits, position);
    times_head(parts, cursor, side)
}

#[tactic(auto, unfolding(cobol_grammar::specs::stmt_forms::Loop::operand_head))]
fn operand_head<P: Parts>(
    parts: &P,
    alloc: Global,
    cursor: &mut Cursor<'_>,
    levels: u32,
) -> Result<PerformHead, Unread>
    ensures { Reads
        ((forms.operand_head (P.parts parts.now) (all.enter_level levels)).reads cursor.old)
        result cursor.new }
{
    enter_level(cursor, levels)?;
    let side = parts.operand(alloc, cursor)?;
    times_head(parts, cursor, side)
}

#[tactic(auto, unfolding(cobol_grammar::specs::stmt_forms::Loop::exit_of))]
fn exit_of<P: Parts>(
    parts: &P,
    alloc: Global,
    cursor: &mut Cursor<'_>,
    exit: u32,
) -> Result<u32, Unread>
    ensures { Reads ((forms.exit_of (P.parts parts.now) exit).reads cursor.old) result cursor.new }
{
    if at_thru(cursor) {
        thru(cursor)?;
        let (_, last) = procedure(parts, alloc, cursor)?;
        Ok(last)
    } else {
        Ok(exit)
    }
}

#[tactic(auto, unfolding(cobol_grammar::specs::stmt_forms::Loop::times_or_once))]
fn times_or_once<P: Parts>(
    parts: &P,
    alloc: Global,
    cursor: &mut Cursor<'_>,
) -> Result<(Control, bool), Unread>
    ensures { Reads ((forms.times_or_once (P.parts parts.now)).reads cursor.old) result cursor.new }
{
    if parts.at_operand(cursor) {
        let control = times_control(parts, alloc, cursor)?;
        Ok((control, false))
    } else {
        Ok((Control::Once, false))
    }
}

#[tactic(auto, unfolding(cobol_grammar::specs::stmt_forms::Loop::control_part))]
fn control_part<P: Parts>(
    parts: &P,
    alloc: Global,
    cursor: &mut Cursor<'_>,
) -> Result<(Control, bool), Unread>
    ensures { Reads ((forms.control_part (P.parts parts.now)).reads cursor.old) result cursor.new }
{
    if at_until(cursor) {
        until_control(parts, alloc, cursor)
    } else {
        times_or_once(parts, alloc, cursor)
    }
}

#[tactic(auto, unfolding(cobol_grammar::specs::stmt_forms::Loop::perform_named))]
fn perform_named<P: Parts>(
    parts: &P,
    alloc: Global,
    cursor: &mut Cursor<'_>,
    name: &[u8],
    position: Position,
) -> Result<PerformHead, Unread>
    ensures { Reads ((forms.perform_named (P.parts parts.now) name.now position).reads cursor.old)
        result cursor.new }
{
    let (entry, exit) = procedure_named(parts, cursor, name, position)?;
    let exit = exit_of(parts, alloc, cursor, exit)?;
    let (control, pending_not) = control_part(parts, alloc, cursor)?;
    let stmt = Stmt::Perform {
        entry,
        exit,
        control,
    };
    Ok(PerformHead::Whole(stmt, pending_not))
}

#[tactic(auto, unfolding(cobol_grammar::specs::stmt_forms::Loop::continues_item))]
fn at_item_part(cursor: &Cursor<'_>) -> bool
    ensures { result ≡ form.is_next forms.continues_item cursor.now }
{
    cursor.sees(b"TIMES") || (cursor.sees(b"OF") || (cursor.sees(b"IN") || cursor.sees_mark(b'(')))
}

#[tactic(auto, unfolding(cobol_grammar::specs::stmt_forms::Loop::perform_name))]
fn perform_name<P: Parts>(
    parts: &P,
    alloc: Global,
    cursor: &mut Cursor<'_>,
    levels: u32,
) -> Result<PerformHead, Unread>
    ensures { Reads
        ((forms.perform_name (P.parts parts.now) (all.enter_level levels)).reads cursor.old)
        result cursor.new }
{
    let (name, position) = cursor.word()?;
    if at_item_part(cursor) {
        item_head(parts, alloc, cursor, levels, &name, position)
    } else {
        perform_named(parts, alloc, cursor, name.as_slice(), position)
    }
}

#[tactic(auto, unfolding(cobol_grammar::specs::stmt_forms::Loop::perform_digits))]
fn perform_digits<P: Parts>(
    parts: &P,
    alloc: Global,
    cursor: &mut Cursor<'_>,
    levels: u32,
) -> Result<PerformHead, Unread>
    ensures { Reads
        ((forms.perform_digits (P.parts parts.now) (all.enter_level levels)).reads cursor.old)
        result cursor.new }
{
    let (digits, position) = cursor.digits(alloc)?;
    if cursor.sees(b"TIMES") {
        digits_head(parts, cursor, levels, digits, position)
    } else {
        perform_named(parts, alloc, cursor, digits.as_slice(), position)
    }
}

#[tactic(auto, unfolding(cobol_grammar::specs::stmt_forms::Loop::perform_word))]
fn perform_word<P: Parts>(
    parts: &P,
    alloc: Global,
    cursor: &mut Cursor<'_>,
) -> Result<PerformHead, Unread>
    ensures { Reads ((forms.perform_word (P.parts parts.now)).reads cursor.old) result cursor.new }
{
    let (name, position) = cursor.word()?;
    perform_named(parts, alloc, cursor, name.as_slice(), position)
}

#[tactic(auto, unfolding(cobol_grammar::specs::stmt_forms::Loop::perform_operand))]
fn perform_operand<P: Parts>(
    parts: &P,
    alloc: Global,
    cursor: &mut Cursor<'_>,
    levels: u32,
) -> Result<PerformHead, Unread>
    ensures { Reads ((forms.perform_operand (P.parts parts.now) (all.enter_level levels)).reads
        cursor.old)
        result cursor.new }
{
    if parts.at_procedure_word(cursor) {
        perform_word(parts, alloc, cursor)
    } else if parts.at_operand(cursor) {
        operand_head(parts, alloc, cursor, levels)
    } else {
        Err(Unread::Stop(Why::Syntax))
    }
}

#[tactic(auto, unfolding(cobol_grammar::specs::stmt_forms::Loop::perform_other))]
fn perform_other<P: Parts>(
    parts: &P,
    alloc: Global,
    cursor: &mut Cursor<'_>,
    levels: u32,
) -> Result<PerformHead, Unread>
    ensures { Reads
        ((forms.perform_other (P.parts parts.now) (all.enter_level levels)).reads cursor.old)
        result cursor.new }
{
    if at_digits(cursor) {
        perform_digits(parts, alloc, cursor, levels)
    } else {
        perform_operand(parts, alloc, cursor, levels)
    }
}

#[tactic(auto, unfolding(cobol_grammar::specs::stmt_forms::Loop::perform_behind))]
fn perform_behind<P: Parts>(
    parts: &P,
    alloc: Global,
    cursor: &mut Cursor<'_>,
    levels: u32,
) -> Result<PerformHead, Unread>
    ensures { Reads
        ((forms.perform_behind (P.parts parts.now) (all.enter_level levels)).reads cursor.old)
        result cursor.new }
{
    if at_until(cursor) {
        until_head(parts, alloc, cursor, levels)
    } else if parts.at_name(cursor) {
        perform_name(parts, alloc, cursor, levels)
    } else {
        perform_other(parts, alloc, cursor, levels)
    }
}

/// PERFORM up to the statements that it holds.
#[tactic(auto, unfolding(cobol_grammar::specs::stmt_forms::Loop::perform_head))]
pub fn perform_head<P: Parts>(
    parts: &P,
    alloc: Global,
    cursor: &mut Cursor<'_>,
    levels: u32,
) -> Result<PerformHead, Unread>
    ensures { Reads
        ((forms.perform_head (P.parts parts.now) (all.enter_level levels)).reads cursor.old)
        result cursor.new }
{
    cursor.key(b"PERFORM")?;
    perform_behind(parts, alloc, cursor, levels)
}
