//! Arithmetic by its verb.

ghost use Rattle.parser_combinators.specs.Reading.{Reads};
ghost use Rattle.cobol_grammar.specs.stmt_forms.Arms as forms;

use crate::arithmetic::arithmetic::{ArithmeticWork, add, compute, divide, multiply, subtract};
use cobol_grammar::part_readers::{Parts, at_adding, at_multiplying};
use cobol_grammar::stmt_forms::ArithmeticVerb;
use parser_combinators::{Cursor, Unread};
use std::alloc::Global;

/// What is computed, and by which statement.
pub type Worked = (ArithmeticVerb, ArithmeticWork);

#[tactic(auto, unfolding(cobol_grammar::specs::stmt_forms::Arms::adding_work))]
fn adding_work<P: Parts>(
    parts: &P,
    alloc: Global,
    cursor: &mut Cursor<'_>,
) -> Result<Worked, Unread>
    ensures { Reads ((forms.adding_work (P.parts parts.now)).reads cursor.old) result cursor.new }
{
    if cursor.sees(b"ADD") {
        let work = add(parts, alloc, cursor)?;
        Ok((ArithmeticVerb::Add, work))
    } else {
        let work = subtract(parts, alloc, cursor)?;
        Ok((ArithmeticVerb::Subtract, work))
    }
}

#[tactic(auto, unfolding(cobol_grammar::specs::stmt_forms::Arms::multiplying_work))]
fn multiplying_work<P: Parts>(
    parts: &P,
    alloc: Global,
    cursor: &mut Cursor<'_>,
) -> Result<Worked, Unread>
    ensures { Reads ((forms.multiplying_work (P.parts parts.now)).reads cursor.old)
        result cursor.new }
{
    if cursor.sees(b"MULTIPLY") {
        let work = multiply(parts, alloc, cursor)?;
        Ok((ArithmeticVerb::Multiply, work))
    } else {
        let work = divide(parts, alloc, cursor)?;
        Ok((ArithmeticVerb::Divide, work))
    }
}

#[tactic(auto, unfolding(cobol_grammar::specs::stmt_forms::Arms::computing_work))]
fn computing_work<P: Parts>(
    parts: &P,
    alloc: Global,
    cursor: &mut Cursor<'_>,
) -> Result<Worked, Unread>
    ensures { Reads ((forms.computing_work (P.parts parts.now)).reads cursor.old)
        result cursor.new }
{
    let work = compute(parts, alloc, cursor)?;
    Ok((ArithmeticVerb::Compute, work))
}

/// Reads arithmetic up to its arms.
#[tactic(auto, unfolding(cobol_grammar::specs::stmt_forms::Arms::arithmetic_work))]
pub fn arithmetic_work<P: Parts>(
    parts: &P,
    alloc: Global,
    cursor: &mut Cursor<'_>,
) -> Result<Worked, Unread>
    ensures { Reads ((forms.arithmetic_work (P.parts parts.now)).reads cursor.old)
        result cursor.new }
{
    if at_adding(cursor) {
        adding_work(parts, alloc, cursor)
    } else if at_multiplying(cursor) {
        multiplying_work(parts, alloc, cursor)
    } else {
        computing_work(parts, alloc, cursor)
    }
}
