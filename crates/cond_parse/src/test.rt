//! Tests after a side.

ghost use Rattle.std.specs.Prelude.{Some};
ghost use Rattle.cob_base.specs.Answers.{Makes};
ghost use Rattle.parser_combinators.specs.Reading.{Reads};
ghost use Rattle.cobol_grammar.specs.expr_forms.Levels.{inner};
ghost use Rattle.cobol_grammar.specs.cond_forms.Test as tests;

use crate::test_words::{at_rel_behind, at_sign, class_or, read_test, rel, relation_of, sign_test};
use cob_base::{Copied, NoMemory};
use cob_tree::Rel;
use cobol_grammar::cond_forms::{Read, Setting};
use cobol_grammar::expr_forms::Side;
use expr_parse::actions::{relation_fault, shape_of, value_fault};
use expr_parse::{ExprContext, expr};
use parser_combinators::{Cursor, Unread};
use std::alloc::Global;

/// The relation of two sides, with what abbreviations after it stand for.
fn relation_read(
    alloc: Global,
    left: Side,
    sign: Rel,
    right: Side,
    terms: u32,
    count: u32,
) -> Result<Read, NoMemory>
    ensures { Makes (tests.read_test (tests.relation_of left sign right) (Some
        (tests.setting_of left sign terms)) count) result }
{
    match left.copy(alloc) {
        Ok(copy) => {
            let setting = Setting {
                left: copy,
                rel: sign,
                terms,
            };
            Ok(read_test(relation_of(left, sign, right), Some(setting), count))
        }
        Err(fault) => {
            drop(left);
            drop(right);
            Err(fault)
        }
    }
}

/// Reads the relation that begins with this left side, before which there are so many terms.
#[tactic(auto, unfolding(cobol_grammar::specs::cond_forms::Test::relation))]
fn relation(
    cursor: &mut Cursor<'_>,
    context: ExprContext<'_>,
    negated: bool,
    left: Side,
    before: u32,
    count: u32,
) -> Result<Read, Unread>
    ensures { Reads ((tests.relation context.entry.names.now (inner context.entry.names.now
        context.entry.levels) negated left before count).reads cursor.old) result cursor.new }
{
    let sign = match rel(cursor, negated) {
        Ok(sign) => sign,
        Err(stop) => {
            drop(left);
            return Err(stop);
        }
    };
    let (right, now) = match expr(cursor, context, count) {
        Ok(found) => found,
        Err(stop) => {
            drop(left);
            return Err(stop);
        }
    };
    cursor.note(value_fault(&left));
    cursor.note(value_fault(&right));
    cursor.note(relation_fault(&left, &right));
    let terms = count.saturating_sub(before);
    Ok(relation_read(context.alloc, left, sign, right, terms, now)?)
}

#[tactic(auto, unfolding(cobol_grammar::specs::cond_forms::Test::one_test))]
fn one_test(
    cursor: &mut Cursor<'_>,
    context: ExprContext<'_>,
    negated: bool,
    end: Option<bool>,
    left: Side,
    before: u32,
    count: u32,
) -> Result<Read, Unread>
    ensures { Reads ((tests.one_test context.entry.names.now (inner context.entry.names.now
        context.entry.levels) negated end left before count).reads cursor.old) result cursor.new }
{
    if at_rel_behind(cursor, negated) {
        return relation(cursor, context, negated, left, before, count);
    }
    if at_sign(cursor) {
        return sign_test(cursor, negated, left, count);
    }
    class_or(cursor, shape_of(&left), negated, end, left, count)
}

#[tactic(auto, unfolding(cobol_grammar::specs::cond_forms::Test::not_test))]
fn not_test(
    cursor: &mut Cursor<'_>,
    context: ExprContext<'_>,
    end: Option<bool>,
    left: Side,
    before: u32,
    count: u32,
) -> Result<Read, Unread>
    ensures { Reads ((tests.not_test context.entry.names.now (inner context.entry.names.now
        context.entry.levels) end left before count).reads cursor.old) result cursor.new }
{
    if let Err(stop) = cursor.key(b"NOT") {
        drop(left);
        return Err(stop);
    }
    one_test(cursor, context, true, end, left, before, count)
}

#[tactic(auto, unfolding(cobol_grammar::specs::cond_forms::Test::behind_is))]
fn behind_is(
    cursor: &mut Cursor<'_>,
    context: ExprContext<'_>,
    left: Side,
    before: u32,
    count: u32,
) -> Result<Read, Unread>
    ensures { Reads ((tests.behind_is context.entry.names.now (inner context.entry.names.now
        context.entry.levels) left before count).reads cursor.old) result cursor.new }
{
    if let Err(stop) = cursor.key(b"IS") {
        drop(left);
        return Err(stop);
    }
    if cursor.sees(b"NOT") {
        not_test(cursor, context, None, left, before, count)
    } else {
        one_test(cursor, context, false, None, left, before, count)
    }
}

/// Reads the test of this left side, where one follows.
#[tactic(auto, unfolding(cobol_grammar::specs::cond_forms::Test::tested))]
pub fn tested(
    cursor: &mut Cursor<'_>,
    context: ExprContext<'_>,
    left: Side,
    before: u32,
    count: u32,
) -> Result<Read, Unread>
    ensures { Reads ((tests.tested context.entry.names.now (inner context.entry.names.now
        context.entry.levels) left before count).reads cursor.old) result cursor.new }
{
    if cursor.sees(b"IS") {
        behind_is(cursor, context, left, before, count)
    } else if cursor.sees(b"NOT") {
        not_test(cursor, context, Some(true), left, before, count)
    } else {
        one_test(cursor, context, false, Some(false), left, before, count)
    }
}
