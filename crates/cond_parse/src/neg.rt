//! Conditions without AND and OR.

ghost use Rattle.std.specs.Prelude.{Some, false};
ghost use Rattle.cob_base.specs.Answers.{Makes};
ghost use Rattle.parser_combinators.specs.Reading.{Reads};
ghost use Rattle.cobol_grammar.specs.expr_forms.Levels.{inner};
ghost use Rattle.cobol_grammar.specs.cond_forms.Test as tests;
ghost use Rattle.cobol_grammar.specs.cond_forms.Alone as alones;
ghost use Rattle.cobol_grammar.specs.cond_forms.Primary as primaries;
ghost use Rattle.cobol_grammar.specs.cond_forms.Neg as negs;
ghost use Rattle.cobol_grammar.specs.cond_forms.Condition.{content};

use crate::condition::content;
use crate::primary::{expr_prim, prim_behind};
use crate::test_words::{at_plain_rel, at_rel, part_by, part_of, rel, relation_of, with_rel};
use cob_base::{Copied, NoMemory};
use cob_tree::Rel;
use cobol_grammar::cond_forms::{Read, Setting, SimpleCond};
use cobol_grammar::expr_forms::Side;
use expr_parse::actions::{count_terms, relation_fault, value_fault};
use expr_parse::{ExprContext, operand};
use parser_combinators::{Cursor, Unread, Why};
use std::alloc::Global;

/// The relation of the left side of an abbreviation, with another sign.
fn abbreviated_part(
    alloc: Global,
    setting: Setting,
    sign: Rel,
    right: Side,
    count: u32,
) -> Result<SimpleCond, NoMemory>
    ensures { Makes (alones.part_of (tests.relation_of setting.left sign right) (Some
        (tests.setting_of setting.left sign setting.terms)) count false) result }
{
    match setting.left.copy(alloc) {
        Ok(left) => {
            let cond = relation_of(left, sign, right);
            Ok(part_of(cond, Some(with_rel(setting, sign)), count, false))
        }
        Err(fault) => {
            drop(setting);
            drop(right);
            Err(fault)
        }
    }
}

#[tactic(auto, unfolding(cobol_grammar::specs::cond_forms::Neg::abbreviated_by))]
fn abbreviated_by(
    cursor: &mut Cursor<'_>,
    context: ExprContext<'_>,
    negated: bool,
    setting: Setting,
    count: u32,
) -> Result<SimpleCond, Unread>
    ensures { Reads ((negs.abbreviated_by context.entry.names.now (inner context.entry.names.now
        context.entry.levels) negated setting count).reads cursor.old) result cursor.new }
{
    let more = match count_terms(cursor, count, setting.terms) {
        Ok(more) => more,
        Err(stop) => {
            drop(setting);
            return Err(stop);
        }
    };
    let sign = match rel(cursor, negated) {
        Ok(sign) => sign,
        Err(stop) => {
            drop(setting);
            return Err(stop);
        }
    };
    let (right, count) = match operand(cursor, context, more) {
        Ok(found) => found,
        Err(stop) => {
            drop(setting);
            return Err(stop);
        }
    };
    cursor.note(value_fault(&right));
    cursor.note(relation_fault(&setting.left, &right));
    Ok(abbreviated_part(context.alloc, setting, sign, right, count)?)
}

/// Reads a relation that begins with its sign.
#[tactic(auto, unfolding(cobol_grammar::specs::cond_forms::Neg::abbreviated))]
pub fn abbreviated(
    cursor: &mut Cursor<'_>,
    context: ExprContext<'_>,
    negated: bool,
    setting: Option<Setting>,
    count: u32,
) -> Result<SimpleCond, Unread>
    ensures { Reads ((negs.abbreviated context.entry.names.now (inner context.entry.names.now
        context.entry.levels) negated setting count).reads cursor.old) result cursor.new }
{
    match setting {
        None => Err(Unread::Stop(Why::Syntax)),
        Some(setting) => { abbreviated_by(cursor, context, negated, setting, count) }
    }
}

#[cycle(conds)]
#[tactic(auto, unfolding(cobol_grammar::specs::cond_forms::Primary::parens_prim))]
fn parens_prim(
    cursor: &mut Cursor<'_>,
    context: ExprContext<'_>,
    count: u32,
) -> Result<Read, Unread>
    ensures { Reads ((primaries.parens_prim context.entry.names.now (inner context.entry.names.now
        context.entry.levels) (content context.entry.names.now context.entry.levels) count).reads
        cursor.old) result cursor.new }
{
    let Read {
        prim,
        count: now,
        ..
    } = content(cursor, context, count)?;
    prim_behind(cursor, context, count, prim, now)
}

/// Reads a condition without NOT, AND and OR.
#[cycle(conds)]
#[tactic(auto, unfolding(cobol_grammar::specs::cond_forms::Primary::prim))]
pub fn prim(cursor: &mut Cursor<'_>, context: ExprContext<'_>, count: u32) -> Result<Read, Unread>
    ensures { Reads ((primaries.prim context.entry.names.now (inner context.entry.names.now
        context.entry.levels) (content context.entry.names.now context.entry.levels) count).reads
        cursor.old) result cursor.new }
{
    if cursor.sees_mark(b'(') {
        parens_prim(cursor, context, count)
    } else {
        expr_prim(cursor, context, count)
    }
}

#[cycle(conds)]
#[tactic(auto, unfolding(cobol_grammar::specs::cond_forms::Neg::prim_part))]
fn prim_part(
    cursor: &mut Cursor<'_>,
    context: ExprContext<'_>,
    negated: bool,
    setting: Option<Setting>,
    count: u32,
) -> Result<SimpleCond, Unread>
    ensures { Reads ((negs.prim_part context.entry.names.now (inner context.entry.names.now
        context.entry.levels) (content context.entry.names.now context.entry.levels) negated
        setting count).reads cursor.old) result cursor.new }
{
    match prim(cursor, context, count) {
        Ok(
            Read {
                prim,
                count,
                pending_not,
            },
        ) => part_by(
            context.alloc,
            cursor,
            negated,
            setting,
            prim,
            count,
            pending_not,
        ),
        Err(stop) => {
            drop(setting);
            Err(stop)
        }
    }
}

#[cycle(conds)]
#[tactic(auto, unfolding(cobol_grammar::specs::cond_forms::Neg::behind_not))]
fn behind_not(
    cursor: &mut Cursor<'_>,
    context: ExprContext<'_>,
    setting: Option<Setting>,
    count: u32,
) -> Result<SimpleCond, Unread>
    ensures { Reads ((negs.behind_not context.entry.names.now (inner context.entry.names.now
        context.entry.levels) (content context.entry.names.now context.entry.levels) setting
        count).reads cursor.old) result cursor.new }
{
    if at_plain_rel(cursor) {
        abbreviated(cursor, context, true, setting, count)
    } else {
        match count_terms(cursor, count, 1) {
            Ok(more) => prim_part(cursor, context, true, setting, more),
            Err(stop) => {
                drop(setting);
                Err(stop)
            }
        }
    }
}

#[cycle(conds)]
#[tactic(auto, unfolding(cobol_grammar::specs::cond_forms::Neg::not_neg))]
fn not_neg(
    cursor: &mut Cursor<'_>,
    context: ExprContext<'_>,
    setting: Option<Setting>,
    count: u32,
) -> Result<SimpleCond, Unread>
    ensures { Reads ((negs.not_neg context.entry.names.now (inner context.entry.names.now
        context.entry.levels) (content context.entry.names.now context.entry.levels) setting
        count).reads cursor.old) result cursor.new }
{
    if let Err(stop) = cursor.key(b"NOT") {
        drop(setting);
        return Err(stop);
    }
    behind_not(cursor, context, setting, count)
}

/// Reads a condition without AND and OR.
#[cycle(conds)]
#[tactic(auto, unfolding(cobol_grammar::specs::cond_forms::Neg::neg))]
pub fn neg(
    cursor: &mut Cursor<'_>,
    context: ExprContext<'_>,
    setting: Option<Setting>,
    count: u32,
) -> Result<SimpleCond, Unread>
    ensures { Reads ((negs.neg context.entry.names.now (inner context.entry.names.now
        context.entry.levels) (content context.entry.names.now context.entry.levels) setting
        count).reads cursor.old) result cursor.new }
{
    if cursor.sees(b"NOT") {
        not_neg(cursor, context, setting, count)
    } else if at_rel(cursor) {
        abbreviated(cursor, context, false, setting, count)
    } else {
        prim_part(cursor, context, false, setting, count)
    }
}
