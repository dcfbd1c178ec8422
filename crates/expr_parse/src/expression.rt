//! Operands and expressions.

ghost use Rattle.parser_combinators.specs.Reading.{Reads};
ghost use Rattle.cobol_grammar.specs.expr_forms.Operand as operands;
ghost use Rattle.cobol_grammar.specs.expr_forms.Expression as expressions;
ghost use Rattle.cobol_grammar.specs.expr_forms.Levels.{inner};

use crate::actions::{
    at_operand, at_turn, chain_of, count_terms, drop_chain, drop_side, finish, joined, last_fault,
    literal_kind, literal_side, negated, number_fault, operator, sum_side,
};
use crate::context::ExprContext;
use crate::levels::nested;
use crate::reference::reference;
use cob_tree::Op;
use cobol_grammar::expr_forms::{Chain, Side};
use parser_combinators::words::{literal, sees_name};
use parser_combinators::{Cursor, Unread, Why};
use std::alloc::Global;

/// Reads a literal.
#[tactic(auto, unfolding(cobol_grammar::specs::expr_forms::Operand::literal_operand))]
pub fn literal_operand(
    alloc: Global,
    cursor: &mut Cursor<'_>,
    count: u32,
) -> Result<(Side, u32), Unread>
    ensures { Reads ((operands.literal_operand count).reads cursor.old) result cursor.new }
{
    let (literal, position) = literal(alloc, cursor)?;
    let kind = literal_kind(&literal);
    Ok((literal_side(literal, kind, position), count))
}

/// Reads a reference or a literal.
#[cycle(exprs)]
#[tactic(auto, unfolding(cobol_grammar::specs::expr_forms::Operand::operand))]
pub fn operand(
    cursor: &mut Cursor<'_>,
    context: ExprContext<'_>,
    count: u32,
) -> Result<(Side, u32), Unread>
    ensures { Reads ((operands.operand context.entry.names.now (inner context.entry.names.now
        context.entry.levels) count).reads cursor.old) result cursor.new }
{
    if !at_operand(cursor) {
        return Err(Unread::Stop(Why::Syntax));
    }
    let count = count_terms(cursor, count, 1)?;
    if sees_name(cursor) {
        reference(cursor, context, count)
    } else {
        literal_operand(context.alloc, cursor, count)
    }
}

/// Reads an operand, or an expression in parentheses.
#[cycle(exprs)]
#[tactic(auto, unfolding(cobol_grammar::specs::expr_forms::Expression::unsigned))]
pub fn unsigned(
    cursor: &mut Cursor<'_>,
    context: ExprContext<'_>,
    count: u32,
) -> Result<(Side, u32), Unread>
    ensures { Reads ((expressions.unsigned context.entry.names.now (inner context.entry.names.now
        context.entry.levels) count).reads cursor.old) result cursor.new }
{
    if cursor.sees_mark(b'(') {
        nested(cursor, context, count)
    } else {
        operand(cursor, context, count)
    }
}

#[cycle(exprs)]
#[tactic(auto, unfolding(cobol_grammar::specs::expr_forms::Expression::minussed))]
fn minussed(
    cursor: &mut Cursor<'_>,
    context: ExprContext<'_>,
    count: u32,
) -> Result<(Side, u32), Unread>
    ensures { Reads ((expressions.minussed context.entry.names.now (inner context.entry.names.now
        context.entry.levels) count).reads cursor.old) result cursor.new }
{
    let count = count_terms(cursor, count, 1)?;
    let position = cursor.mark(b'-')?;
    let (side, count) = unsigned(cursor, context, count)?;
    cursor.note(number_fault(&side));
    Ok((negated(context.alloc, position, side)?, count))
}

#[cycle(exprs)]
#[tactic(auto, unfolding(cobol_grammar::specs::expr_forms::Expression::plussed))]
fn plussed(
    cursor: &mut Cursor<'_>,
    context: ExprContext<'_>,
    count: u32,
) -> Result<(Side, u32), Unread>
    ensures { Reads ((expressions.plussed context.entry.names.now (inner context.entry.names.now
        context.entry.levels) count).reads cursor.old) result cursor.new }
{
    let position = cursor.mark(b'+')?;
    let (side, count) = unsigned(cursor, context, count)?;
    Ok((sum_side(position, side), count))
}

/// Reads an operand with its sign.
#[cycle(exprs)]
#[tactic(auto, unfolding(cobol_grammar::specs::expr_forms::Expression::unary))]
pub fn unary(
    cursor: &mut Cursor<'_>,
    context: ExprContext<'_>,
    count: u32,
) -> Result<(Side, u32), Unread>
    ensures { Reads ((expressions.unary context.entry.names.now (inner context.entry.names.now
        context.entry.levels) count).reads cursor.old) result cursor.new }
{
    if cursor.sees_mark(b'-') {
        minussed(cursor, context, count)
    } else if cursor.sees_mark(b'+') {
        plussed(cursor, context, count)
    } else {
        unsigned(cursor, context, count)
    }
}

/// Reads one more operand after an operator.
#[cycle(exprs)]
#[tactic(auto, unfolding(cobol_grammar::specs::expr_forms::Expression::operated))]
pub fn operated(
    cursor: &mut Cursor<'_>,
    context: ExprContext<'_>,
    op: Op,
    chain: Chain,
    count: u32,
) -> Result<(Chain, u32), Unread>
    ensures { Reads ((expressions.operated context.entry.names.now (inner context.entry.names.now
        context.entry.levels) op chain count).reads cursor.old) result cursor.new }
{
    match unary(cursor, context, count) {
        Ok((right, count)) => {
            cursor.note(last_fault(&chain));
            cursor.note(number_fault(&right));
            Ok((joined(context.alloc, op, chain, right)?, count))
        }
        Err(stop) => {
            drop_chain(chain);
            Err(stop)
        }
    }
}

/// Reads an operator and one more operand.
#[cycle(exprs)]
#[tactic(auto, unfolding(cobol_grammar::specs::expr_forms::Expression::turn))]
pub fn turn(
    cursor: &mut Cursor<'_>,
    context: ExprContext<'_>,
    state: (Chain, u32),
) -> Result<(Chain, u32), Unread>
    ensures { Reads ((expressions.turn context.entry.names.now (inner context.entry.names.now
        context.entry.levels) state).reads cursor.old) result cursor.new }
{
    let (chain, count) = state;
    match operator(cursor) {
        Ok(op) => operated(cursor, context, op, chain, count),
        Err(stop) => {
            drop_chain(chain);
            Err(stop)
        }
    }
}

#[cycle(exprs)]
fn turns(
    cursor: &mut Cursor<'_>,
    context: ExprContext<'_>,
    first: (Chain, u32),
) -> Result<(Chain, u32), Unread>
    ensures { Reads ((expressions.turns context.entry.names.now (inner context.entry.names.now
        context.entry.levels) first).reads cursor.old) result cursor.new }
{
    let mut state = first;
    'terms: while at_turn(cursor) {
        state = turn(cursor, context, state)?;
    }
    Ok(state)
}

/// Goes on after a first operand.
#[cycle(exprs)]
#[tactic(auto, unfolding(cobol_grammar::specs::expr_forms::Expression::sum))]
pub fn sum(
    cursor: &mut Cursor<'_>,
    context: ExprContext<'_>,
    side: Side,
    count: u32,
) -> Result<(Side, u32), Unread>
    ensures { Reads ((expressions.sum context.entry.names.now (inner context.entry.names.now
        context.entry.levels) side count).reads cursor.old) result cursor.new }
{
    let first = (chain_of(side), count);
    let (chain, count) = turns(cursor, context, first)?;
    Ok((finish(context.alloc, chain)?, count))
}

/// Reads an expression.
#[cycle(exprs)]
#[tactic(auto, unfolding(cobol_grammar::specs::expr_forms::Expression::expr))]
pub fn expr(
    cursor: &mut Cursor<'_>,
    context: ExprContext<'_>,
    count: u32,
) -> Result<(Side, u32), Unread>
    ensures { Reads ((expressions.expr context.entry.names.now (inner context.entry.names.now
        context.entry.levels) count).reads cursor.old) result cursor.new }
{
    let (first, count) = unary(cursor, context, count)?;
    sum(cursor, context, first, count)
}

/// Reads an expression in parentheses.
#[cycle(exprs)]
#[tactic(auto, unfolding(cobol_grammar::specs::expr_forms::Expression::in_nested))]
pub fn in_nested(
    cursor: &mut Cursor<'_>,
    context: ExprContext<'_>,
    count: u32,
) -> Result<(Side, u32), Unread>
    ensures { Reads ((expressions.in_nested context.entry.names.now (inner context.entry.names.now
        context.entry.levels) count).reads cursor.old) result cursor.new }
{
    let position = cursor.mark(b'(')?;
    let (side, count) = expr(cursor, context, count)?;
    match cursor.mark(b')') {
        Ok(_) => Ok((sum_side(position, side), count)),
        Err(stop) => {
            drop_side(side);
            Err(stop)
        }
    }
}
