//! What a side without a test after it is.
//!
//! What isn't used is dropped by `drop`, and there is no `?` while a tree is alive: an implicit
//! drop is checked with the drops of all types that may be in the tree.

ghost use Rattle.std.specs.Prelude.{◌≡◌, None, Some};
ghost use Rattle.cob_base.specs.Answers.{Makes};
ghost use Rattle.cob_tree.specs.declared.cond.Cond.TheVariants as conds;
ghost use Rattle.parser_combinators.specs.Form.{chosen};
ghost use Rattle.parser_combinators.specs.Reading.{Reads};
ghost use Rattle.cobol_grammar.specs.expr_forms.Fault.{is_condition};
ghost use Rattle.cobol_grammar.specs.cond_forms.Test as tests;
ghost use Rattle.cobol_grammar.specs.cond_forms.Alone as alones;

use crate::test_words::test::relation_of;
use cob_base::{Boxed, Copied, NoMemory};
use cob_tree::{Cond, Place, Rel};
use cobol_grammar::cond_forms::{Primary, Setting, SimpleCond};
use cobol_grammar::expr_forms::{ExprForm, ParsedExpr, Side};
use expr_parse::actions::{
    condition_fault, count_terms, is_condition, relation_fault, shape_of, value_fault,
};
use parser_combinators::{Cursor, Unread, Why};
use std::alloc::Global;

fn with_not(alloc: Global, negated: bool, cond: Cond) -> Result<Cond, NoMemory>
    ensures { Makes (alones.with_not negated cond) result }
{
    if negated {
        Ok(Cond::Not(Boxed::new(alloc, cond)?))
    } else {
        Ok(cond)
    }
}

/// A condition and what was found of it.
pub fn part_of(cond: Cond, setting: Option<Setting>, count: u32, pending_not: bool) -> SimpleCond
    ensures { result ≡ alones.part_of cond setting count pending_not }
{
    SimpleCond {
        cond,
        setting,
        count,
        pending_not,
    }
}

/// The same left side with another sign.
pub fn with_rel(setting: Setting, sign: Rel) -> Setting
    ensures { result ≡ tests.setting_of setting.left sign setting.terms }
{
    let Setting { left, terms, .. } = setting;
    Setting {
        left,
        rel: sign,
        terms,
    }
}

fn carried_part(
    alloc: Global,
    setting: Setting,
    right: Side,
    count: u32,
    pending_not: bool,
) -> Result<SimpleCond, NoMemory>
    ensures { Makes (alones.part_of (tests.relation_of setting.left setting.rel right) (Some
        setting) count pending_not) result }
{
    match setting.left.copy(alloc) {
        Ok(left) => {
            let cond = relation_of(left, setting.rel, right);
            Ok(part_of(cond, Some(setting), count, pending_not))
        }
        Err(fault) => {
            drop(setting);
            drop(right);
            Err(fault)
        }
    }
}

/// A relation with the left side and the sign of an abbreviation.
#[tactic(auto, unfolding(cobol_grammar::specs::cond_forms::Alone::carried))]
fn carried(
    alloc: Global,
    cursor: &mut Cursor<'_>,
    setting: Setting,
    right: Side,
    count: u32,
    pending_not: bool,
) -> Result<SimpleCond, Unread>
    ensures { Reads ((alones.carried setting right count pending_not).reads cursor.old)
        result cursor.new }
{
    match count_terms(cursor, count, setting.terms) {
        Ok(more) => {
            cursor.note(value_fault(&right));
            cursor.note(relation_fault(&setting.left, &right));
            Ok(carried_part(alloc, setting, right, more, pending_not)?)
        }
        Err(stop) => {
            drop(setting);
            drop(right);
            Err(stop)
        }
    }
}

fn named_place(
    alloc: Global,
    negated: bool,
    place: Place,
    count: u32,
    pending_not: bool,
) -> Result<SimpleCond, NoMemory>
    ensures { Makes (alones.part_of (alones.with_not negated (conds.Named place)) None count
        pending_not) result }
{
    let cond = with_not(alloc, negated, Cond::Named(place))?;
    Ok(part_of(cond, None, count, pending_not))
}

#[tactic(auto, unfolding(cobol_grammar::specs::cond_forms::Alone::named_by))]
fn named_by(
    alloc: Global,
    cursor: &Cursor<'_>,
    negated: bool,
    what: ParsedExpr,
    count: u32,
    pending_not: bool,
) -> Result<SimpleCond, Unread>
    ensures { Reads ((alones.named_by negated what count pending_not).reads cursor.now)
        result cursor.now }
{
    match what {
        ParsedExpr::Ref(place) => Ok(named_place(alloc, negated, place, count, pending_not)?),
        ParsedExpr::Enclosed(place) => Ok(named_place(alloc, negated, place, count, pending_not)?),
        ParsedExpr::Literal(operand) => {
            drop(operand);
            Err(Unread::Stop(Why::Syntax))
        }
        ParsedExpr::Sum(expr) => {
            drop(expr);
            Err(Unread::Stop(Why::Syntax))
        }
    }
}

#[tactic(auto, unfolding(cobol_grammar::specs::cond_forms::Alone::named))]
fn named(
    alloc: Global,
    cursor: &mut Cursor<'_>,
    negated: bool,
    side: Side,
    count: u32,
    pending_not: bool,
) -> Result<SimpleCond, Unread>
    ensures { Reads ((alones.named negated side count pending_not).reads cursor.old)
        result cursor.new }
{
    cursor.note(condition_fault(&side));
    named_by(alloc, cursor, negated, side.what, count, pending_not)
}

#[tactic(auto, unfolding(cobol_grammar::specs::cond_forms::Alone::kept))]
fn kept(
    cursor: &Cursor<'_>,
    setting: Setting,
    what: ParsedExpr,
    count: u32,
    pending_not: bool,
) -> Result<SimpleCond, Unread>
    ensures { Reads ((alones.kept setting what count pending_not).reads cursor.now)
        result cursor.now }
{
    match what {
        ParsedExpr::Ref(place) => Ok(part_of(
            Cond::Named(place),
            Some(setting),
            count,
            pending_not,
        )),
        other => {
            drop(other);
            drop(setting);
            Err(Unread::Stop(Why::Syntax))
        }
    }
}

fn set_ref_part(
    alloc: Global,
    cursor: &mut Cursor<'_>,
    setting: Setting,
    side: Side,
    count: u32,
    pending_not: bool,
) -> Result<SimpleCond, Unread>
    ensures { Reads ((chosen (is_condition side.kind) (alones.kept setting side.what count
        pending_not) (alones.carried setting side count pending_not)).reads cursor.old) result
        cursor.new }
{
    if is_condition(side.kind) {
        kept(cursor, setting, side.what, count, pending_not)
    } else {
        carried(alloc, cursor, setting, side, count, pending_not)
    }
}

#[tactic(auto, unfolding(cobol_grammar::specs::cond_forms::Alone::ref_part))]
fn ref_part(
    alloc: Global,
    cursor: &mut Cursor<'_>,
    negated: bool,
    setting: Option<Setting>,
    side: Side,
    count: u32,
    pending_not: bool,
) -> Result<SimpleCond, Unread>
    ensures { Reads ((alones.ref_part negated setting side count pending_not).reads cursor.old)
        result cursor.new }
{
    if negated {
        drop(setting);
        return named(alloc, cursor, true, side, count, pending_not);
    }
    match setting {
        None => named(alloc, cursor, false, side, count, pending_not),
        Some(setting) => set_ref_part(alloc, cursor, setting, side, count, pending_not),
    }
}

#[tactic(auto, unfolding(cobol_grammar::specs::cond_forms::Alone::literal_part))]
fn literal_part(
    alloc: Global,
    cursor: &mut Cursor<'_>,
    negated: bool,
    setting: Option<Setting>,
    side: Side,
    count: u32,
    pending_not: bool,
) -> Result<SimpleCond, Unread>
    ensures { Reads ((alones.literal_part negated setting side count pending_not).reads cursor.old)
        result cursor.new }
{
    if negated {
        drop(setting);
        drop(side);
        return Err(Unread::Stop(Why::Syntax));
    }
    match setting {
        None => {
            drop(side);
            Err(Unread::Stop(Why::Syntax))
        }
        Some(setting) => carried(alloc, cursor, setting, side, count, pending_not),
    }
}

/// What an expression without a test after it is.
#[tactic(auto, unfolding(cobol_grammar::specs::cond_forms::Alone::alone_part, cobol_grammar::specs::cond_forms::Alone::part_by_shape))]
pub fn alone_part(
    alloc: Global,
    cursor: &mut Cursor<'_>,
    negated: bool,
    setting: Option<Setting>,
    side: Side,
    count: u32,
    pending_not: bool,
) -> Result<SimpleCond, Unread>
    ensures { Reads ((alones.alone_part negated setting side count pending_not).reads cursor.old)
        result cursor.new }
{
    let shape = shape_of(&side);
    match shape {
        ExprForm::Ref => ref_part(alloc, cursor, negated, setting, side, count, pending_not),
        ExprForm::Literal => literal_part(
            alloc,
            cursor,
            negated,
            setting,
            side,
            count,
            pending_not,
        ),
        ExprForm::Enclosed => {
            drop(setting);
            named(alloc, cursor, negated, side, count, pending_not)
        }
        ExprForm::Sum => {
            drop(setting);
            drop(side);
            Err(Unread::Stop(Why::Syntax))
        }
    }
}

fn test_part(
    alloc: Global,
    negated: bool,
    cond: Cond,
    after: Option<Setting>,
    count: u32,
    pending_not: bool,
) -> Result<SimpleCond, NoMemory>
    ensures { Makes (alones.part_of (alones.with_not negated cond) after count pending_not) result }
{
    match with_not(alloc, negated, cond) {
        Ok(cond) => Ok(part_of(cond, after, count, pending_not)),
        Err(fault) => {
            drop(after);
            Err(fault)
        }
    }
}

/// The condition that was read, or what the side is.
#[tactic(auto, unfolding(cobol_grammar::specs::cond_forms::Alone::part_by))]
pub fn part_by(
    alloc: Global,
    cursor: &mut Cursor<'_>,
    negated: bool,
    setting: Option<Setting>,
    prim: Primary,
    count: u32,
    pending_not: bool,
) -> Result<SimpleCond, Unread>
    ensures { Reads ((alones.part_by negated setting prim count pending_not).reads cursor.old)
        result cursor.new }
{
    match prim {
        Primary::Test(cond, after) => {
            drop(setting);
            Ok(test_part(alloc, negated, cond, after, count, pending_not)?)
        }
        Primary::Alone(side) => alone_part(
            alloc,
            cursor,
            negated,
            setting,
            side,
            count,
            pending_not,
        ),
    }
}
