//! Conditions joined by AND and OR, and what closes parentheses.

ghost use Rattle.cob_base.specs.Answers.{Makes};
ghost use Rattle.cob_tree.specs.declared.cond.Cond.TheVariants as conds;
ghost use Rattle.parser_combinators.specs.Reading.{Reads};
ghost use Rattle.cobol_grammar.specs.cond_forms.Condition as conditions;

use crate::test_words::alone::part_of;
use crate::test_words::test::read_test;
use cob_base::{Boxed, NoMemory};
use cob_tree::Cond;
use cobol_grammar::cond_forms::{Joined, Primary, Read, SimpleCond};
use cobol_grammar::expr_forms::Side;
use expr_parse::actions::enclosed;
use parser_combinators::{Cursor, Position, Unread, Why};
use std::alloc::Global;

fn and_boxed(alloc: Global, left: Boxed<Cond>, right: Cond) -> Result<Cond, NoMemory>
    ensures { Makes (conds.And left right) result }
{
    match Boxed::new(alloc, right) {
        Ok(right) => Ok(Cond::And(left, right)),
        Err(fault) => {
            drop(left);
            Err(fault)
        }
    }
}

fn and_of(alloc: Global, left: Cond, right: Cond) -> Result<Cond, NoMemory>
    ensures { Makes (conds.And left right) result }
{
    match Boxed::new(alloc, left) {
        Ok(left) => and_boxed(alloc, left, right),
        Err(fault) => {
            drop(right);
            Err(fault)
        }
    }
}

fn or_boxed(alloc: Global, left: Boxed<Cond>, right: Cond) -> Result<Cond, NoMemory>
    ensures { Makes (conds.Or left right) result }
{
    match Boxed::new(alloc, right) {
        Ok(right) => Ok(Cond::Or(left, right)),
        Err(fault) => {
            drop(left);
            Err(fault)
        }
    }
}

fn or_of(alloc: Global, left: Cond, right: Cond) -> Result<Cond, NoMemory>
    ensures { Makes (conds.Or left right) result }
{
    match Boxed::new(alloc, left) {
        Ok(left) => or_boxed(alloc, left, right),
        Err(fault) => {
            drop(right);
            Err(fault)
        }
    }
}

fn whole_of(alloc: Global, before: Option<Cond>, cond: Cond) -> Result<Cond, NoMemory>
    ensures { Makes (conditions.whole_of before cond) result }
{
    match before {
        None => Ok(cond),
        Some(before) => or_of(alloc, before, cond),
    }
}

/// A condition with one more part after AND.
pub fn and_joined(
    alloc: Global,
    before: Option<Cond>,
    left: Cond,
    next: SimpleCond,
) -> Result<Joined, NoMemory>
    ensures { Makes (conditions.and_joined before left next) result }
{
    let SimpleCond {
        cond,
        setting,
        count,
        pending_not,
    } = next;
    match and_of(alloc, left, cond) {
        Ok(both) => Ok(Joined {
            before,
            part: part_of(both, setting, count, pending_not),
        }),
        Err(fault) => {
            drop(before);
            drop(setting);
            Err(fault)
        }
    }
}

/// A condition with one more part after OR.
pub fn or_joined(
    alloc: Global,
    before: Option<Cond>,
    left: Cond,
    next: SimpleCond,
) -> Result<Joined, NoMemory>
    ensures { Makes (conditions.or_joined before left next) result }
{
    match whole_of(alloc, before, left) {
        Ok(whole) => Ok(Joined {
            before: Some(whole),
            part: next,
        }),
        Err(fault) => {
            drop(next);
            Err(fault)
        }
    }
}

/// The whole condition of the parts.
pub fn joined_whole(alloc: Global, state: Joined) -> Result<SimpleCond, NoMemory>
    ensures { Makes (conditions.joined_whole state) result }
{
    let Joined { before, part } = state;
    let SimpleCond {
        cond,
        setting,
        count,
        pending_not,
    } = part;
    match whole_of(alloc, before, cond) {
        Ok(whole) => Ok(part_of(whole, setting, count, pending_not)),
        Err(fault) => {
            drop(setting);
            Err(fault)
        }
    }
}

/// Takes the parenthesis after a condition.
#[tactic(auto, unfolding(cobol_grammar::specs::cond_forms::Condition::close_cond))]
pub fn close_cond(cursor: &mut Cursor<'_>, part: SimpleCond) -> Result<Read, Unread>
    ensures { Reads ((conditions.close_cond part).reads cursor.old) result cursor.new }
{
    let SimpleCond {
        cond,
        setting,
        count,
        pending_not,
    } = part;
    drop(setting);
    if pending_not {
        drop(cond);
        return Err(Unread::Stop(Why::Syntax));
    }
    match cursor.mark(b')') {
        Ok(_) => Ok(read_test(cond, None, count)),
        Err(stop) => {
            drop(cond);
            Err(stop)
        }
    }
}

/// Takes the parenthesis after an expression.
#[tactic(auto, unfolding(cobol_grammar::specs::cond_forms::Condition::close_side))]
pub fn close_side(
    cursor: &mut Cursor<'_>,
    position: Position,
    side: Side,
    count: u32,
) -> Result<Read, Unread>
    ensures { Reads ((conditions.close_side position side count).reads cursor.old)
        result cursor.new }
{
    match cursor.mark(b')') {
        Ok(_) => Ok(Read {
            prim: Primary::Alone(enclosed(position, side)),
            count,
            pending_not: false,
        }),
        Err(stop) => {
            drop(side);
            Err(stop)
        }
    }
}
