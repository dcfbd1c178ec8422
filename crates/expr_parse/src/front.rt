//! Subscripts or a window after a reference.

ghost use Rattle.std.specs.Prelude.{◌≡◌};
ghost use Rattle.parser_combinators.specs.Reading.{Reads};
ghost use Rattle.cobol_grammar.specs.expr_forms.Subscript as subscripts;
ghost use Rattle.cobol_grammar.specs.expr_forms.Chain.{finish as finished};
ghost use Rattle.cobol_grammar.specs.expr_forms.Front as fronts;
ghost use Rattle.cobol_grammar.specs.expr_forms.Levels.{inner};
ghost use Rattle.expr_parse.specs.End as ends;
ghost use Rattle.expr_parse.specs.Front as names_in_front;

use crate::actions::{
    at_colon, at_turn, chain_of, count_terms, drop_chain, drop_either, drop_subs, either_fault,
    finish, found_fault, number_either, operator, ref_either, subs_of, sum_of, sum_side,
    window_suffix, with_number,
};
use crate::context::ExprContext;
use crate::expression::{operated, turn, unary, unsigned};
use crate::reference::{qualifiers, ref_behind};
use crate::subscript::more_subs;
use crate::window::window_behind;
use cob_base::{Items, Word};
use cob_tree::Op;
use cobol_grammar::expr_forms::{Chain, FirstInParens, MaybeSubscripts, Suffix};
use parser_combinators::words::{name, sees_digits, sees_name};
use parser_combinators::{Cursor, Position, Unread};
use std::alloc::Global;
use symbol_tables::data_names::{NameTable, Referent};

#[tactic(auto, unfolding(cobol_grammar::specs::expr_forms::Front::digits_front))]
fn digits_front(alloc: Global, cursor: &mut Cursor<'_>) -> Result<FirstInParens, Unread>
    ensures { Reads (fronts.digits_front.reads cursor.old) result cursor.new }
{
    let (digits, position) = cursor.digits(alloc)?;
    Ok(FirstInParens::Either(number_either(alloc, digits, position)?))
}

#[cycle(exprs)]
#[tactic(auto, unfolding(cobol_grammar::specs::expr_forms::Front::plus_front))]
fn plus_front(
    cursor: &mut Cursor<'_>,
    context: ExprContext<'_>,
    count: u32,
) -> Result<FirstInParens, Unread>
    ensures { Reads ((fronts.plus_front context.entry.names.now (inner context.entry.names.now
        context.entry.levels) count).reads cursor.old) result cursor.new }
{
    let position = cursor.mark(b'+')?;
    if sees_digits(cursor) {
        digits_front(context.alloc, cursor)
    } else {
        let (side, count) = unsigned(cursor, context, count)?;
        Ok(FirstInParens::Sum(chain_of(sum_side(position, side)), count))
    }
}

/// Goes on after a name that a parenthesis follows, so that it isn't a subscript.
#[cycle(exprs)]
#[tactic(auto, unfolding(crate::specs::Front::enclosing_front))]
fn enclosing_front(
    cursor: &mut Cursor<'_>,
    context: ExprContext<'_>,
    found: Referent,
    of: Items<Word>,
    position: Position,
    count: u32,
) -> Result<FirstInParens, Unread>
    ensures { Reads ((names_in_front.enclosing_front (inner context.entry.names.now
        context.entry.levels) found of position count).reads cursor.old) result cursor.new }
{
    let count = count_terms(cursor, count, 1)?;
    let (side, count) = ref_behind(cursor, context, found, of, position, count)?;
    Ok(FirstInParens::Sum(chain_of(side), count))
}

#[tactic(auto, unfolding(crate::specs::Front::bare_front))]
fn bare_front(
    alloc: Global,
    cursor: &mut Cursor<'_>,
    found: Referent,
    of: Items<Word>,
    position: Position,
) -> Result<FirstInParens, Unread>
    ensures { Reads ((names_in_front.bare_front found of position).reads cursor.old)
        result cursor.new }
{
    cursor.note(found_fault(found, 0, false, position));
    Ok(FirstInParens::Either(ref_either(alloc, found, of, position)?))
}

/// Goes on after a name.
#[cycle(exprs)]
#[tactic(auto, unfolding(crate::specs::Front::name_behind))]
fn name_behind(
    cursor: &mut Cursor<'_>,
    context: ExprContext<'_>,
    found: Referent,
    of: Items<Word>,
    position: Position,
    count: u32,
) -> Result<FirstInParens, Unread>
    ensures { Reads ((names_in_front.name_behind (inner context.entry.names.now
        context.entry.levels) found of position count).reads cursor.old) result cursor.new }
{
    if cursor.sees_mark(b'(') {
        enclosing_front(cursor, context, found, of, position, count)
    } else {
        bare_front(context.alloc, cursor, found, of, position)
    }
}

#[cycle(exprs)]
#[tactic(auto, unfolding(crate::specs::Front::named_front))]
fn named_front(
    cursor: &mut Cursor<'_>,
    context: ExprContext<'_>,
    count: u32,
) -> Result<FirstInParens, Unread>
    ensures { Reads ((names_in_front.named_front context.entry.names.now (inner
        context.entry.names.now context.entry.levels) count).reads cursor.old) result cursor.new }
{
    let (word, position) = name(cursor)?;
    let of = qualifiers(context.alloc, cursor)?;
    let found = context.names.look(&word, of.as_slice());
    name_behind(cursor, context, found, of, position, count)
}

#[cycle(exprs)]
fn name_front(
    cursor: &mut Cursor<'_>,
    context: ExprContext<'_>,
    count: u32,
) -> Result<FirstInParens, Unread>
    ensures { Reads ((fronts.name_front context.entry.names.now (inner context.entry.names.now
        context.entry.levels) count).reads cursor.old) result cursor.new }
{
    named_front(cursor, context, count)
}

#[cycle(exprs)]
#[tactic(auto, unfolding(cobol_grammar::specs::expr_forms::Front::unary_front))]
fn unary_front(
    cursor: &mut Cursor<'_>,
    context: ExprContext<'_>,
    count: u32,
) -> Result<FirstInParens, Unread>
    ensures { Reads ((fronts.unary_front context.entry.names.now (inner context.entry.names.now
        context.entry.levels) count).reads cursor.old) result cursor.new }
{
    let (side, count) = unary(cursor, context, count)?;
    Ok(FirstInParens::Sum(chain_of(side), count))
}

#[cycle(exprs)]
#[tactic(auto, unfolding(cobol_grammar::specs::expr_forms::Front::other_front))]
fn other_front(
    cursor: &mut Cursor<'_>,
    context: ExprContext<'_>,
    count: u32,
) -> Result<FirstInParens, Unread>
    ensures { Reads ((fronts.other_front context.entry.names.now (inner context.entry.names.now
        context.entry.levels) count).reads cursor.old) result cursor.new }
{
    if sees_name(cursor) {
        name_front(cursor, context, count)
    } else {
        unary_front(cursor, context, count)
    }
}

/// Reads what comes first in the parentheses after a reference.
#[cycle(exprs)]
#[tactic(auto, unfolding(cobol_grammar::specs::expr_forms::Front::first_front))]
pub fn first_front(
    cursor: &mut Cursor<'_>,
    context: ExprContext<'_>,
    count: u32,
) -> Result<FirstInParens, Unread>
    ensures { Reads ((fronts.first_front context.entry.names.now (inner context.entry.names.now
        context.entry.levels) count).reads cursor.old) result cursor.new }
{
    if cursor.sees_mark(b'+') {
        plus_front(cursor, context, count)
    } else if sees_digits(cursor) {
        digits_front(context.alloc, cursor)
    } else {
        other_front(cursor, context, count)
    }
}

/// Goes on after an operator that can't be in subscripts.
#[cycle(exprs)]
#[tactic(auto, unfolding(cobol_grammar::specs::expr_forms::Front::decided))]
fn decided(
    cursor: &mut Cursor<'_>,
    context: ExprContext<'_>,
    count: u32,
    either: MaybeSubscripts,
    op: Op,
) -> Result<FirstInParens, Unread>
    ensures { Reads ((fronts.decided context.entry.names.now (inner context.entry.names.now
        context.entry.levels) count either op).reads cursor.old) result cursor.new }
{
    let (chain, leaves) = sum_of(either);
    match count_terms(cursor, count, leaves) {
        Ok(count) => {
            let (chain, count) = operated(cursor, context, op, chain, count)?;
            Ok(FirstInParens::Sum(chain, count))
        }
        Err(stop) => {
            drop_chain(chain);
            Err(stop)
        }
    }
}

#[tactic(auto, unfolding(cobol_grammar::specs::expr_forms::Front::number_turn))]
fn number_turn(
    alloc: Global,
    cursor: &mut Cursor<'_>,
    op: Op,
    negative: bool,
    either: MaybeSubscripts,
) -> Result<FirstInParens, Unread>
    ensures { Reads ((fronts.number_turn op negative either).reads cursor.old) result cursor.new }
{
    match cursor.digits(alloc) {
        Ok((digits, position)) => {
            cursor.note(either_fault(&either));
            let either = with_number(alloc, op, negative, digits, position, either)?;
            Ok(FirstInParens::Either(either))
        }
        Err(stop) => {
            drop_either(either);
            Err(stop)
        }
    }
}

#[cycle(exprs)]
#[tactic(auto, unfolding(cobol_grammar::specs::expr_forms::Front::number_or_decided))]
fn number_or_decided(
    cursor: &mut Cursor<'_>,
    context: ExprContext<'_>,
    count: u32,
    either: MaybeSubscripts,
    op: Op,
    negative: bool,
) -> Result<FirstInParens, Unread>
    ensures { Reads ((fronts.number_or_decided context.entry.names.now (inner
        context.entry.names.now context.entry.levels) count either op negative).reads cursor.old)
        result cursor.new }
{
    if sees_digits(cursor) {
        number_turn(context.alloc, cursor, op, negative, either)
    } else {
        decided(cursor, context, count, either, op)
    }
}

#[cycle(exprs)]
#[tactic(auto, unfolding(cobol_grammar::specs::expr_forms::Front::plus_turn))]
fn plus_turn(
    cursor: &mut Cursor<'_>,
    context: ExprContext<'_>,
    count: u32,
    either: MaybeSubscripts,
) -> Result<FirstInParens, Unread>
    ensures { Reads ((fronts.plus_turn context.entry.names.now (inner context.entry.names.now
        context.entry.levels) count either).reads cursor.old) result cursor.new }
{
    match cursor.mark(b'+') {
        Ok(_) => number_or_decided(cursor, context, count, either, Op::Add, false),
        Err(stop) => {
            drop_either(either);
            Err(stop)
        }
    }
}

/// Whether the last subscript is an item alone.
fn takes_minus(either: &MaybeSubscripts) -> bool
    ensures { result ≡ fronts.takes_minus either.now }
{
    either.base.is_some()
}

#[cycle(exprs)]
#[tactic(auto, unfolding(cobol_grammar::specs::expr_forms::Front::minus_behind))]
fn minus_behind(
    cursor: &mut Cursor<'_>,
    context: ExprContext<'_>,
    count: u32,
    either: MaybeSubscripts,
) -> Result<FirstInParens, Unread>
    ensures { Reads ((fronts.minus_behind context.entry.names.now (inner context.entry.names.now
        context.entry.levels) count either).reads cursor.old) result cursor.new }
{
    if takes_minus(&either) {
        number_or_decided(cursor, context, count, either, Op::Sub, true)
    } else {
        decided(cursor, context, count, either, Op::Sub)
    }
}

#[cycle(exprs)]
#[tactic(auto, unfolding(cobol_grammar::specs::expr_forms::Front::minus_turn))]
fn minus_turn(
    cursor: &mut Cursor<'_>,
    context: ExprContext<'_>,
    count: u32,
    either: MaybeSubscripts,
) -> Result<FirstInParens, Unread>
    ensures { Reads ((fronts.minus_turn context.entry.names.now (inner context.entry.names.now
        context.entry.levels) count either).reads cursor.old) result cursor.new }
{
    match cursor.mark(b'-') {
        Ok(_) => minus_behind(cursor, context, count, either),
        Err(stop) => {
            drop_either(either);
            Err(stop)
        }
    }
}

#[cycle(exprs)]
#[tactic(auto, unfolding(cobol_grammar::specs::expr_forms::Front::factor_turn))]
fn factor_turn(
    cursor: &mut Cursor<'_>,
    context: ExprContext<'_>,
    count: u32,
    either: MaybeSubscripts,
) -> Result<FirstInParens, Unread>
    ensures { Reads ((fronts.factor_turn context.entry.names.now (inner context.entry.names.now
        context.entry.levels) count either).reads cursor.old) result cursor.new }
{
    match operator(cursor) {
        Ok(op) => decided(cursor, context, count, either, op),
        Err(stop) => {
            drop_either(either);
            Err(stop)
        }
    }
}

#[cycle(exprs)]
#[tactic(auto, unfolding(cobol_grammar::specs::expr_forms::Front::front_turn))]
fn front_turn(
    cursor: &mut Cursor<'_>,
    context: ExprContext<'_>,
    count: u32,
    front: FirstInParens,
) -> Result<FirstInParens, Unread>
    ensures { Reads ((fronts.front_turn context.entry.names.now (inner context.entry.names.now
        context.entry.levels) count front).reads cursor.old) result cursor.new }
{
    match front {
        FirstInParens::Sum(chain, more) => {
            let (chain, count) = turn(cursor, context, (chain, more))?;
            Ok(FirstInParens::Sum(chain, count))
        }
        FirstInParens::Either(either) => {
            if cursor.sees_mark(b'+') {
                plus_turn(cursor, context, count, either)
            } else if cursor.sees_mark(b'-') {
                minus_turn(cursor, context, count, either)
            } else {
                factor_turn(cursor, context, count, either)
            }
        }
    }
}

/// Goes on with operators and operands, as many as there are.
#[cycle(exprs)]
pub fn front_turns(
    cursor: &mut Cursor<'_>,
    context: ExprContext<'_>,
    count: u32,
    first: FirstInParens,
) -> Result<FirstInParens, Unread>
    ensures { Reads ((fronts.front_turns context.entry.names.now (inner context.entry.names.now
        context.entry.levels) count first).reads cursor.old) result cursor.new }
{
    let mut front = first;
    'fronts: while at_turn(cursor) {
        front = front_turn(cursor, context, count, front)?;
    }
    Ok(front)
}

#[tactic(auto, unfolding(cobol_grammar::specs::expr_forms::Front::subs_suffix))]
fn subs_suffix(
    alloc: Global,
    cursor: &mut Cursor<'_>,
    names: &NameTable,
    count: u32,
    either: MaybeSubscripts,
) -> Result<(Suffix, u32), Unread>
    ensures { Reads ((fronts.subs_suffix names.now count either).reads cursor.old)
        result cursor.new }
{
    cursor.note(either.fault);
    let first = subs_of(alloc, either)?;
    let subs = more_subs(alloc, cursor, names, first)?;
    match cursor.mark(b')') {
        Ok(_) => Ok((Suffix::Subs(subs), count)),
        Err(stop) => {
            drop_subs(subs);
            Err(stop)
        }
    }
}

/// Goes on after a sum that begins a window.
#[cycle(exprs)]
fn window_end(
    cursor: &mut Cursor<'_>,
    context: ExprContext<'_>,
    alone: bool,
    chain: Chain,
    count: u32,
) -> Result<(Suffix, u32), Unread>
    ensures { Reads ((fronts.window_suffix context.entry.names.now (inner context.entry.names.now
        context.entry.levels) alone (finished chain) count).reads cursor.old) result cursor.new }
{
    let first = finish(context.alloc, chain)?;
    let (window, count) = window_behind(cursor, context, alone, first, count)?;
    Ok((window_suffix(context.alloc, window)?, count))
}

/// Goes on where a colon is next; the terms are counted now.
#[cycle(exprs)]
fn colon_end(
    cursor: &mut Cursor<'_>,
    context: ExprContext<'_>,
    alone: bool,
    count: u32,
    either: MaybeSubscripts,
) -> Result<(Suffix, u32), Unread>
    ensures { Reads ((ends.colon_end context.entry.names.now (inner context.entry.names.now
        context.entry.levels) alone count either).reads cursor.old) result cursor.new }
{
    let (chain, leaves) = sum_of(either);
    match count_terms(cursor, count, leaves) {
        Ok(count) => window_end(cursor, context, alone, chain, count),
        Err(stop) => {
            drop_chain(chain);
            Err(stop)
        }
    }
}

/// Reads the rest of the parentheses: more subscripts, or a window.
#[cycle(exprs)]
#[tactic(auto, unfolding(cobol_grammar::specs::expr_forms::Front::front_end))]
pub fn front_end(
    cursor: &mut Cursor<'_>,
    context: ExprContext<'_>,
    alone: bool,
    count: u32,
    front: FirstInParens,
) -> Result<(Suffix, u32), Unread>
    ensures { Reads ((fronts.front_end context.entry.names.now (inner context.entry.names.now
        context.entry.levels) alone count front).reads cursor.old) result cursor.new }
{
    match front {
        FirstInParens::Sum(chain, more) => window_end(cursor, context, alone, chain, more),
        FirstInParens::Either(either) => {
            if at_colon(cursor) {
                colon_end(cursor, context, alone, count, either)
            } else {
                subs_suffix(context.alloc, cursor, context.names, count, either)
            }
        }
    }
}

/// Reads subscripts or a window.
#[cycle(exprs)]
#[tactic(auto, unfolding(cobol_grammar::specs::expr_forms::Front::in_suffix))]
pub fn in_suffix(
    cursor: &mut Cursor<'_>,
    context: ExprContext<'_>,
    alone: bool,
    count: u32,
) -> Result<(Suffix, u32), Unread>
    ensures { Reads ((fronts.in_suffix context.entry.names.now (inner context.entry.names.now
        context.entry.levels) alone count).reads cursor.old) result cursor.new }
{
    cursor.mark(b'(')?;
    let first = first_front(cursor, context, count)?;
    let front = front_turns(cursor, context, count, first)?;
    front_end(cursor, context, alone, count, front)
}
