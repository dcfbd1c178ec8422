//! Conditions.

ghost use Rattle.parser_combinators.specs.Reading.{Reads};
ghost use Rattle.cobol_grammar.specs.expr_forms.Levels.{inner};
ghost use Rattle.cobol_grammar.specs.cond_forms.Condition as conditions;
ghost use Rattle.cobol_grammar.specs.cond_forms.Condition.{content};

use crate::neg::{neg, prim};
use crate::test_words::{
    alone_part, and_joined, at_join, close_cond, close_side, joined_whole, or_joined, part_of,
};
use cob_base::limit::MAX_PARENS;
use cob_tree::Cond;
use cobol_grammar::cond_forms::{Joined, Primary, Read, Setting, SimpleCond};
use cobol_grammar::expr_forms::Side;
use expr_parse::ExprContext;
use parser_combinators::{Cursor, Position, Unread, Why};
use std::alloc::Global;
use symbol_tables::data_names::NameTable;

/// Goes on with a condition after AND.
#[cycle(conds)]
#[tactic(auto, unfolding(cobol_grammar::specs::cond_forms::Condition::and_part))]
fn and_part(
    cursor: &mut Cursor<'_>,
    context: ExprContext<'_>,
    before: Option<Cond>,
    left: Cond,
    setting: Option<Setting>,
    count: u32,
) -> Result<Joined, Unread>
    ensures { Reads ((conditions.and_part context.entry.names.now (inner context.entry.names.now
        context.entry.levels) (content context.entry.names.now context.entry.levels) before left
        setting count).reads cursor.old) result cursor.new }
{
    if let Err(stop) = cursor.key(b"AND") {
        drop(before);
        drop(left);
        drop(setting);
        return Err(stop);
    }
    match neg(cursor, context, setting, count) {
        Ok(next) => Ok(and_joined(context.alloc, before, left, next)?),
        Err(stop) => {
            drop(before);
            drop(left);
            Err(stop)
        }
    }
}

/// Goes on with a condition after OR.
#[cycle(conds)]
#[tactic(auto, unfolding(cobol_grammar::specs::cond_forms::Condition::or_part))]
fn or_part(
    cursor: &mut Cursor<'_>,
    context: ExprContext<'_>,
    before: Option<Cond>,
    left: Cond,
    setting: Option<Setting>,
    count: u32,
) -> Result<Joined, Unread>
    ensures { Reads ((conditions.or_part context.entry.names.now (inner context.entry.names.now
        context.entry.levels) (content context.entry.names.now context.entry.levels) before left
        setting count).reads cursor.old) result cursor.new }
{
    if let Err(stop) = cursor.key(b"OR") {
        drop(before);
        drop(left);
        drop(setting);
        return Err(stop);
    }
    match neg(cursor, context, setting, count) {
        Ok(next) => Ok(or_joined(context.alloc, before, left, next)?),
        Err(stop) => {
            drop(before);
            drop(left);
            Err(stop)
        }
    }
}

/// Reads one more part after AND or OR.
#[cycle(conds)]
#[tactic(auto, unfolding(cobol_grammar::specs::cond_forms::Condition::join))]
fn join(cursor: &mut Cursor<'_>, context: ExprContext<'_>, state: Joined) -> Result<Joined, Unread>
    ensures { Reads ((conditions.join context.entry.names.now (inner context.entry.names.now
        context.entry.levels) (content context.entry.names.now context.entry.levels) state).reads
        cursor.old) result cursor.new }
{
    let Joined { before, part } = state;
    let SimpleCond {
        cond: left,
        setting,
        count,
        pending_not,
    } = part;
    if pending_not {
        drop(before);
        drop(left);
        drop(setting);
        return Err(Unread::Stop(Why::Syntax));
    }
    if cursor.sees(b"AND") {
        and_part(cursor, context, before, left, setting, count)
    } else {
        or_part(cursor, context, before, left, setting, count)
    }
}

#[cycle(conds)]
fn joins_from(
    cursor: &mut Cursor<'_>,
    context: ExprContext<'_>,
    first: Joined,
) -> Result<Joined, Unread>
    ensures { Reads ((conditions.joins_from context.entry.names.now (inner context.entry.names.now
        context.entry.levels) (content context.entry.names.now context.entry.levels) first).reads
        cursor.old) result cursor.new }
{
    let mut state = first;
    'parts: while at_join(cursor) {
        state = join(cursor, context, state)?;
    }
    Ok(state)
}

/// Goes on after the first part of a condition.
#[cycle(conds)]
#[tactic(auto, unfolding(cobol_grammar::specs::cond_forms::Condition::conds_from))]
fn conds_from(
    cursor: &mut Cursor<'_>,
    context: ExprContext<'_>,
    first: SimpleCond,
) -> Result<SimpleCond, Unread>
    ensures { Reads ((conditions.conds_from context.entry.names.now (inner context.entry.names.now
        context.entry.levels) (content context.entry.names.now context.entry.levels) first).reads
        cursor.old) result cursor.new }
{
    let first = Joined {
        before: None,
        part: first,
    };
    let state = joins_from(cursor, context, first)?;
    Ok(joined_whole(context.alloc, state)?)
}

#[cycle(conds)]
#[tactic(auto, unfolding(cobol_grammar::specs::cond_forms::Condition::content_from))]
fn content_from(
    cursor: &mut Cursor<'_>,
    context: ExprContext<'_>,
    first: SimpleCond,
) -> Result<Read, Unread>
    ensures { Reads ((conditions.content_from context.entry.names.now (inner
        context.entry.names.now context.entry.levels) (content context.entry.names.now
        context.entry.levels) first).reads cursor.old) result cursor.new }
{
    let part = conds_from(cursor, context, first)?;
    close_cond(cursor, part)
}

#[cycle(conds)]
#[tactic(auto, unfolding(cobol_grammar::specs::cond_forms::Condition::alone_content))]
fn alone_content(
    cursor: &mut Cursor<'_>,
    context: ExprContext<'_>,
    side: Side,
    count: u32,
    pending_not: bool,
) -> Result<Read, Unread>
    ensures { Reads ((conditions.alone_content context.entry.names.now (inner
        context.entry.names.now context.entry.levels) (content context.entry.names.now
        context.entry.levels) side count pending_not).reads cursor.old) result cursor.new }
{
    let first = alone_part(context.alloc, cursor, false, None, side, count, pending_not)?;
    content_from(cursor, context, first)
}

#[cycle(conds)]
#[tactic(auto, unfolding(cobol_grammar::specs::cond_forms::Condition::content_by))]
fn content_by(
    cursor: &mut Cursor<'_>,
    context: ExprContext<'_>,
    position: Position,
    prim: Primary,
    count: u32,
    pending_not: bool,
) -> Result<Read, Unread>
    ensures { Reads ((conditions.content_by context.entry.names.now (inner context.entry.names.now
        context.entry.levels) (content context.entry.names.now context.entry.levels) position prim
        count pending_not).reads cursor.old) result cursor.new }
{
    match prim {
        Primary::Test(cond, after) => {
            let first = part_of(cond, after, count, pending_not);
            content_from(cursor, context, first)
        }
        Primary::Alone(side) => {
            if pending_not {
                return alone_content(cursor, context, side, count, true);
            }
            if cursor.sees_mark(b')') {
                close_side(cursor, position, side, count)
            } else {
                alone_content(cursor, context, side, count, false)
            }
        }
    }
}

#[cycle(conds)]
#[tactic(auto, unfolding(cobol_grammar::specs::cond_forms::Condition::neg_content))]
fn neg_content(
    cursor: &mut Cursor<'_>,
    context: ExprContext<'_>,
    count: u32,
) -> Result<Read, Unread>
    ensures { Reads ((conditions.neg_content context.entry.names.now (inner context.entry.names.now
        context.entry.levels) (content context.entry.names.now context.entry.levels) count).reads
        cursor.old) result cursor.new }
{
    let first = neg(cursor, context, None, count)?;
    content_from(cursor, context, first)
}

#[cycle(conds)]
#[tactic(auto, unfolding(cobol_grammar::specs::cond_forms::Condition::prim_content))]
fn prim_content(
    cursor: &mut Cursor<'_>,
    context: ExprContext<'_>,
    position: Position,
    count: u32,
) -> Result<Read, Unread>
    ensures { Reads ((conditions.prim_content context.entry.names.now (inner
        context.entry.names.now context.entry.levels) (content context.entry.names.now
        context.entry.levels) position count).reads cursor.old) result cursor.new }
{
    let Read {
        prim,
        count,
        pending_not,
    } = prim(cursor, context, count)?;
    content_by(cursor, context, position, prim, count, pending_not)
}

#[cycle(conds)]
#[tactic(auto, unfolding(cobol_grammar::specs::cond_forms::Condition::in_content))]
fn in_content(cursor: &mut Cursor<'_>, context: ExprContext<'_>, count: u32) -> Result<Read, Unread>
    ensures { Reads ((conditions.in_content context.entry.names.now (inner context.entry.names.now
        context.entry.levels) (content context.entry.names.now context.entry.levels) count).reads
        cursor.old) result cursor.new }
{
    let position = cursor.mark(b'(')?;
    if cursor.sees(b"NOT") {
        neg_content(cursor, context, count)
    } else {
        prim_content(cursor, context, position, count)
    }
}

/// Reads what is in parentheses: an expression alone, or a condition.
#[cycle(conds)]
pub fn content(
    cursor: &mut Cursor<'_>,
    context: ExprContext<'_>,
    count: u32,
) -> Result<Read, Unread>
    ensures { Reads ((content context.entry.names.now context.entry.levels count).reads cursor.old)
        result cursor.new }
{
    if context.levels == 0 {
        let begins = cursor.sees_mark(b'(');
        return Err(cursor.too_deep(Why::Parens, begins));
    }
    let within = ExprContext {
        levels: context.levels - 1,
        ..context
    };
    in_content(cursor, within, count)
}

/// Reads a condition with so many levels of parentheses.
#[tactic(auto, unfolding(cobol_grammar::specs::cond_forms::Condition::cond_with))]
fn cond_with(
    cursor: &mut Cursor<'_>,
    context: ExprContext<'_>,
    count: u32,
) -> Result<SimpleCond, Unread>
    ensures { Reads ((conditions.cond_with context.entry.names.now (inner context.entry.names.now
        context.entry.levels) (content context.entry.names.now context.entry.levels) count).reads
        cursor.old) result cursor.new }
{
    let first = neg(cursor, context, None, count)?;
    conds_from(cursor, context, first)
}

/// Reads a condition as far as it goes, with what is known of it.
#[tactic(auto, unfolding(cobol_grammar::specs::cond_forms::Condition::cond))]
pub fn cond(alloc: Global, cursor: &mut Cursor<'_>, names: &NameTable) -> Result<SimpleCond, Unread>
    ensures { Reads ((conditions.cond names.now).reads cursor.old) result cursor.new }
{
    let context = ExprContext {
        alloc,
        names,
        levels: MAX_PARENS,
    };
    cond_with(cursor, context, 0)
}

/// Reads a condition, and whether a NOT after it isn't its own. That NOT is then read too.
#[tactic(auto, unfolding(cobol_grammar::specs::cond_forms::Condition::whole_cond))]
pub fn whole_cond(
    alloc: Global,
    cursor: &mut Cursor<'_>,
    names: &NameTable,
) -> Result<(Cond, bool), Unread>
    ensures { Reads ((conditions.whole_cond names.now).reads cursor.old) result cursor.new }
{
    let SimpleCond {
        cond,
        setting,
        pending_not,
        ..
    } = cond(alloc, cursor, names)?;
    drop(setting);
    Ok((cond, pending_not))
}
