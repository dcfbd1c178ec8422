//! Arithmetic up to its arms.

ghost use Rattle.cob_base.specs.Answers.{Makes};
ghost use Rattle.parser_combinators.specs.Form as form;
ghost use Rattle.parser_combinators.specs.Reading.{Reads};
ghost use Rattle.cobol_grammar.specs.stmt_forms.Arithmetic as forms;

use cob_base::{Items, NoMemory};
use cob_tree::{Calc, Operand, Target};
use cobol_grammar::part_readers::{Parts, number_operand, pushed};
use parser_combinators::{Cursor, Unread};
use std::alloc::Global;

/// The operand before GIVING, where there is one, and where the results go.
type Goal = (Option<Operand>, Items<Target>);

/// What is computed, and where the result goes.
pub type ArithmeticWork = (Calc, Items<Target>);

/// Reads one more operand.
fn operand_behind<P: Parts>(
    parts: &P,
    alloc: Global,
    cursor: &mut Cursor<'_>,
    found: Items<Operand>,
) -> Result<Items<Operand>, Unread>
    ensures { Reads ((form.added (forms.number_operand (P.parts parts.now)) found).reads cursor.old)
        result cursor.new }
{
    match number_operand(parts, alloc, cursor) {
        Ok(next) => Ok(pushed(found, next)?),
        Err(stop) => {
            drop(found);
            Err(stop)
        }
    }
}

fn operands_from<P: Parts>(
    parts: &P,
    alloc: Global,
    cursor: &mut Cursor<'_>,
    mut found: Items<Operand>,
) -> Result<Items<Operand>, Unread>
    ensures { Reads ((form.loop (P.parts parts.now).begins_operand
        (form.added (forms.number_operand (P.parts parts.now))) found).reads cursor.old)
        result cursor.new }
{
    'items: while parts.at_operand(cursor) {
        found = operand_behind(parts, alloc, cursor, found)?;
    }
    Ok(found)
}

fn number_operands<P: Parts>(
    parts: &P,
    alloc: Global,
    cursor: &mut Cursor<'_>,
) -> Result<Items<Operand>, Unread>
    ensures { Reads ((forms.number_operands (P.parts parts.now)).reads cursor.old)
        result cursor.new }
{
    let first = number_operand(parts, alloc, cursor)?;
    let found = pushed(Items::new(alloc), first)?;
    operands_from(parts, alloc, cursor, found)
}

#[tactic(auto, unfolding(cobol_grammar::specs::stmt_forms::Arithmetic::rounded))]
fn rounded(cursor: &mut Cursor<'_>) -> Result<bool, Unread>
    ensures { Reads (forms.rounded.reads cursor.old) result cursor.new }
{
    if cursor.sees(b"ROUNDED") {
        cursor.key(b"ROUNDED")?;
        Ok(true)
    } else {
        Ok(false)
    }
}

#[tactic(auto, unfolding(cobol_grammar::specs::stmt_forms::Arithmetic::target))]
fn target<P: Parts>(parts: &P, alloc: Global, cursor: &mut Cursor<'_>) -> Result<Target, Unread>
    ensures { Reads ((forms.target (P.parts parts.now)).reads cursor.old) result cursor.new }
{
    let side = parts.reference(alloc, cursor)?;
    cursor.note(parts.number_fault(&side));
    let rounded = rounded(cursor)?;
    let place = parts.place_of(side);
    Ok(Target { place, rounded })
}

#[tactic(auto, unfolding(cobol_grammar::specs::stmt_forms::Arithmetic::result))]
fn result<P: Parts>(parts: &P, alloc: Global, cursor: &mut Cursor<'_>) -> Result<Target, Unread>
    ensures { Reads ((forms.result (P.parts parts.now)).reads cursor.old) result cursor.new }
{
    let side = parts.reference(alloc, cursor)?;
    cursor.note(parts.result_fault(&side));
    let rounded = rounded(cursor)?;
    let place = parts.place_of(side);
    Ok(Target { place, rounded })
}

/// Reads one more item that takes the result.
fn result_behind<P: Parts>(
    parts: &P,
    alloc: Global,
    cursor: &mut Cursor<'_>,
    found: Items<Target>,
) -> Result<Items<Target>, Unread>
    ensures { Reads ((form.added (forms.result (P.parts parts.now)) found).reads cursor.old)
        result cursor.new }
{
    match result(parts, alloc, cursor) {
        Ok(next) => Ok(pushed(found, next)?),
        Err(stop) => {
            drop(found);
            Err(stop)
        }
    }
}

fn results_from<P: Parts>(
    parts: &P,
    alloc: Global,
    cursor: &mut Cursor<'_>,
    mut found: Items<Target>,
) -> Result<Items<Target>, Unread>
    ensures { Reads ((form.loop (P.parts parts.now).is_name
        (form.added (forms.result (P.parts parts.now))) found).reads cursor.old)
        result cursor.new }
{
    'items: while parts.at_name(cursor) {
        found = result_behind(parts, alloc, cursor, found)?;
    }
    Ok(found)
}

fn results<P: Parts>(
    parts: &P,
    alloc: Global,
    cursor: &mut Cursor<'_>,
) -> Result<Items<Target>, Unread>
    ensures { Reads ((forms.results (P.parts parts.now)).reads cursor.old)
        result cursor.new }
{
    let first = result(parts, alloc, cursor)?;
    let found = pushed(Items::new(alloc), first)?;
    results_from(parts, alloc, cursor, found)
}

#[tactic(auto, unfolding(cobol_grammar::specs::stmt_forms::Arithmetic::giving))]
fn giving<P: Parts>(
    parts: &P,
    alloc: Global,
    cursor: &mut Cursor<'_>,
) -> Result<Items<Target>, Unread>
    ensures { Reads ((forms.giving (P.parts parts.now)).reads cursor.old) result cursor.new }
{
    cursor.key(b"GIVING")?;
    results(parts, alloc, cursor)
}

#[tactic(auto, unfolding(cobol_grammar::specs::stmt_forms::Arithmetic::giving_goal))]
fn giving_goal<P: Parts>(
    parts: &P,
    alloc: Global,
    cursor: &mut Cursor<'_>,
    operand: Operand,
) -> Result<Goal, Unread>
    ensures { Reads ((forms.giving_goal (P.parts parts.now) operand).reads cursor.old)
        result cursor.new }
{
    match giving(parts, alloc, cursor) {
        Ok(into) => Ok((Some(operand), into)),
        Err(stop) => {
            drop(operand);
            Err(stop)
        }
    }
}

#[tactic(auto, unfolding(cobol_grammar::specs::stmt_forms::Arithmetic::literal_goal))]
fn literal_goal<P: Parts>(parts: &P, alloc: Global, cursor: &mut Cursor<'_>) -> Result<Goal, Unread>
    ensures { Reads ((forms.literal_goal (P.parts parts.now)).reads cursor.old) result cursor.new }
{
    let operand = number_operand(parts, alloc, cursor)?;
    giving_goal(parts, alloc, cursor, operand)
}

/// Reads one more item that is an operand and takes the result.
fn target_behind<P: Parts>(
    parts: &P,
    alloc: Global,
    cursor: &mut Cursor<'_>,
    found: Items<Target>,
) -> Result<Items<Target>, Unread>
    ensures { Reads ((form.added (forms.target (P.parts parts.now)) found).reads cursor.old)
        result cursor.new }
{
    match target(parts, alloc, cursor) {
        Ok(next) => Ok(pushed(found, next)?),
        Err(stop) => {
            drop(found);
            Err(stop)
        }
    }
}

fn targets_from<P: Parts>(
    parts: &P,
    alloc: Global,
    cursor: &mut Cursor<'_>,
    mut found: Items<Target>,
) -> Result<Items<Target>, Unread>
    ensures { Reads ((form.loop (P.parts parts.now).is_name
        (form.added (forms.target (P.parts parts.now))) found).reads cursor.old)
        result cursor.new }
{
    'items: while parts.at_name(cursor) {
        found = target_behind(parts, alloc, cursor, found)?;
    }
    Ok(found)
}

#[tactic(auto, unfolding(cobol_grammar::specs::stmt_forms::Arithmetic::targets_goal))]
fn targets_goal<P: Parts>(
    parts: &P,
    alloc: Global,
    cursor: &mut Cursor<'_>,
    side: P::Side,
) -> Result<Goal, Unread>
    ensures { Reads ((forms.targets_goal (P.parts parts.now) side).reads cursor.old)
        result cursor.new }
{
    let rounded = rounded(cursor)?;
    let place = parts.place_of(side);
    let found = pushed(Items::new(alloc), Target { place, rounded })?;
    let into = targets_from(parts, alloc, cursor, found)?;
    Ok((None, into))
}

#[tactic(auto, unfolding(cobol_grammar::specs::stmt_forms::Arithmetic::item_goal_behind))]
fn item_goal_behind<P: Parts>(
    parts: &P,
    alloc: Global,
    cursor: &mut Cursor<'_>,
    side: P::Side,
) -> Result<Goal, Unread>
    ensures { Reads ((forms.item_goal_behind (P.parts parts.now) side).reads cursor.old)
        result cursor.new }
{
    if cursor.sees(b"GIVING") {
        let operand = parts.operand_of(side);
        giving_goal(parts, alloc, cursor, operand)
    } else {
        targets_goal(parts, alloc, cursor, side)
    }
}

#[tactic(auto, unfolding(cobol_grammar::specs::stmt_forms::Arithmetic::item_goal))]
fn item_goal<P: Parts>(parts: &P, alloc: Global, cursor: &mut Cursor<'_>) -> Result<Goal, Unread>
    ensures { Reads ((forms.item_goal (P.parts parts.now)).reads cursor.old) result cursor.new }
{
    let side = parts.reference(alloc, cursor)?;
    cursor.note(parts.number_fault(&side));
    item_goal_behind(parts, alloc, cursor, side)
}

#[tactic(auto, unfolding(cobol_grammar::specs::stmt_forms::Arithmetic::goal))]
fn goal<P: Parts>(parts: &P, alloc: Global, cursor: &mut Cursor<'_>) -> Result<Goal, Unread>
    ensures { Reads ((forms.goal (P.parts parts.now)).reads cursor.old) result cursor.new }
{
    if parts.at_name(cursor) {
        item_goal(parts, alloc, cursor)
    } else {
        literal_goal(parts, alloc, cursor)
    }
}

/// What ADD computes, by whether there is an operand before GIVING.
fn added_to(operands: Items<Operand>, found: Goal) -> Result<ArithmeticWork, NoMemory>
    ensures { Makes (forms.added_to operands found) result }
{
    let (to, into) = found;
    match to {
        None => Ok((Calc::Add(operands), into)),
        Some(to) => match pushed(operands, to) {
            Ok(operands) => Ok((Calc::AddGiving(operands), into)),
            Err(fault) => {
                drop(into);
                Err(fault)
            }
        },
    }
}

#[tactic(auto, unfolding(cobol_grammar::specs::stmt_forms::Arithmetic::add_to))]
fn add_to<P: Parts>(
    parts: &P,
    alloc: Global,
    cursor: &mut Cursor<'_>,
    operands: Items<Operand>,
) -> Result<ArithmeticWork, Unread>
    ensures { Reads ((forms.add_to (P.parts parts.now) operands).reads cursor.old)
        result cursor.new }
{
    if let Err(stop) = cursor.key(b"TO") {
        drop(operands);
        return Err(stop);
    }
    match goal(parts, alloc, cursor) {
        Ok(found) => Ok(added_to(operands, found)?),
        Err(stop) => {
            drop(operands);
            Err(stop)
        }
    }
}

#[tactic(auto, unfolding(cobol_grammar::specs::stmt_forms::Arithmetic::add_giving))]
fn add_giving<P: Parts>(
    parts: &P,
    alloc: Global,
    cursor: &mut Cursor<'_>,
    operands: Items<Operand>,
) -> Result<ArithmeticWork, Unread>
    ensures { Reads ((forms.add_giving (P.parts parts.now) operands).reads cursor.old)
        result cursor.new }
{
    match giving(parts, alloc, cursor) {
        Ok(into) => Ok((Calc::AddGiving(operands), into)),
        Err(stop) => {
            drop(operands);
            Err(stop)
        }
    }
}

/// Reads ADD up to its arms.
#[tactic(auto, unfolding(cobol_grammar::specs::stmt_forms::Arithmetic::add))]
pub fn add<P: Parts>(
    parts: &P,
    alloc: Global,
    cursor: &mut Cursor<'_>,
) -> Result<ArithmeticWork, Unread>
    ensures { Reads ((forms.add (P.parts parts.now)).reads cursor.old) result cursor.new }
{
    cursor.key(b"ADD")?;
    let operands = number_operands(parts, alloc, cursor)?;
    if cursor.sees(b"GIVING") {
        add_giving(parts, alloc, cursor, operands)
    } else {
        add_to(parts, alloc, cursor, operands)
    }
}

/// Reads SUBTRACT up to its arms.
#[tactic(auto, unfolding(cobol_grammar::specs::stmt_forms::Arithmetic::subtract))]
pub fn subtract<P: Parts>(
    parts: &P,
    alloc: Global,
    cursor: &mut Cursor<'_>,
) -> Result<ArithmeticWork, Unread>
    ensures { Reads ((forms.subtract (P.parts parts.now)).reads cursor.old) result cursor.new }
{
    cursor.key(b"SUBTRACT")?;
    let operands = number_operands(parts, alloc, cursor)?;
    if let Err(stop) = cursor.key(b"FROM") {
        drop(operands);
        return Err(stop);
    }
    let (from, into) = match goal(parts, alloc, cursor) {
        Ok(found) => found,
        Err(stop) => {
            drop(operands);
            return Err(stop);
        }
    };
    match from {
        None => Ok((Calc::Subtract(operands), into)),
        Some(from) => Ok((Calc::SubtractGiving(operands, from), into)),
    }
}

/// Reads MULTIPLY up to its arms.
#[tactic(auto, unfolding(cobol_grammar::specs::stmt_forms::Arithmetic::multiply))]
pub fn multiply<P: Parts>(
    parts: &P,
    alloc: Global,
    cursor: &mut Cursor<'_>,
) -> Result<ArithmeticWork, Unread>
    ensures { Reads ((forms.multiply (P.parts parts.now)).reads cursor.old) result cursor.new }
{
    cursor.key(b"MULTIPLY")?;
    let one = number_operand(parts, alloc, cursor)?;
    if let Err(stop) = cursor.key(b"BY") {
        drop(one);
        return Err(stop);
    }
    let (by, into) = match goal(parts, alloc, cursor) {
        Ok(found) => found,
        Err(stop) => {
            drop(one);
            return Err(stop);
        }
    };
    match by {
        None => Ok((Calc::Multiply(one), into)),
        Some(by) => Ok((Calc::MultiplyGiving(one, by), into)),
    }
}

#[tactic(auto, unfolding(cobol_grammar::specs::stmt_forms::Arithmetic::divide_into))]
fn divide_into<P: Parts>(
    parts: &P,
    alloc: Global,
    cursor: &mut Cursor<'_>,
    by: Operand,
) -> Result<ArithmeticWork, Unread>
    ensures { Reads ((forms.divide_into (P.parts parts.now) by).reads cursor.old)
        result cursor.new }
{
    if let Err(stop) = cursor.key(b"INTO") {
        drop(by);
        return Err(stop);
    }
    let (dividend, into) = match goal(parts, alloc, cursor) {
        Ok(found) => found,
        Err(stop) => {
            drop(by);
            return Err(stop);
        }
    };
    match dividend {
        None => Ok((Calc::Divide(by), into)),
        Some(dividend) => Ok((Calc::DivideGiving(by, dividend), into)),
    }
}

#[tactic(auto, unfolding(cobol_grammar::specs::stmt_forms::Arithmetic::divide_by))]
fn divide_by<P: Parts>(
    parts: &P,
    alloc: Global,
    cursor: &mut Cursor<'_>,
    dividend: Operand,
) -> Result<ArithmeticWork, Unread>
    ensures { Reads ((forms.divide_by (P.parts parts.now) dividend).reads cursor.old)
        result cursor.new }
{
    if let Err(stop) = cursor.key(b"BY") {
        drop(dividend);
        return Err(stop);
    }
    let by = match number_operand(parts, alloc, cursor) {
        Ok(by) => by,
        Err(stop) => {
            drop(dividend);
            return Err(stop);
        }
    };
    match giving(parts, alloc, cursor) {
        Ok(into) => Ok((Calc::DivideGiving(by, dividend), into)),
        Err(stop) => {
            drop(by);
            drop(dividend);
            Err(stop)
        }
    }
}

/// Reads DIVIDE up to its arms.
#[tactic(auto, unfolding(cobol_grammar::specs::stmt_forms::Arithmetic::divide))]
pub fn divide<P: Parts>(
    parts: &P,
    alloc: Global,
    cursor: &mut Cursor<'_>,
) -> Result<ArithmeticWork, Unread>
    ensures { Reads ((forms.divide (P.parts parts.now)).reads cursor.old) result cursor.new }
{
    cursor.key(b"DIVIDE")?;
    let one = number_operand(parts, alloc, cursor)?;
    if cursor.sees(b"BY") {
        divide_by(parts, alloc, cursor, one)
    } else {
        divide_into(parts, alloc, cursor, one)
    }
}

#[tactic(auto, unfolding(cobol_grammar::specs::stmt_forms::Arithmetic::equals))]
fn equals(cursor: &mut Cursor<'_>) -> Result<(), Unread>
    ensures { Reads (forms.equals.reads cursor.old) result cursor.new }
{
    if cursor.sees_mark(b'=') {
        cursor.mark(b'=')?;
    } else {
        cursor.key(b"EQUAL")?;
    }
    Ok(())
}

/// Reads COMPUTE up to its arms.
#[tactic(auto, unfolding(cobol_grammar::specs::stmt_forms::Arithmetic::compute))]
pub fn compute<P: Parts>(
    parts: &P,
    alloc: Global,
    cursor: &mut Cursor<'_>,
) -> Result<ArithmeticWork, Unread>
    ensures { Reads ((forms.compute (P.parts parts.now)).reads cursor.old) result cursor.new }
{
    cursor.key(b"COMPUTE")?;
    let into = results(parts, alloc, cursor)?;
    if let Err(stop) = equals(cursor) {
        drop(into);
        return Err(stop);
    }
    let side = match parts.expr(alloc, cursor) {
        Ok(side) => side,
        Err(stop) => {
            drop(into);
            return Err(stop);
        }
    };
    cursor.note(parts.number_fault(&side));
    Ok((Calc::Compute(parts.expr_of(side)), into))
}
