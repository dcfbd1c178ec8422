//! Tests of a side that have no second side.

ghost use Rattle.std.specs.Prelude.{◌≡◌};
ghost use Rattle.parser_combinators.specs.Reading.{Reads};
ghost use Rattle.cobol_grammar.specs.cond_forms.Test as tests;

use crate::test_words::token::{at_class, class_word, sign_word};
use cob_tree::{ClassKind, Cond, Rel};
use cobol_grammar::cond_forms::{Primary, Read, Setting};
use cobol_grammar::expr_forms::{ExprForm, ParsedExpr, Side};
use expr_parse::actions::{expr_of, number_fault, value_fault};
use parser_combinators::{Cursor, Unread, Why};

/// The relation of two sides.
pub fn relation_of(left: Side, sign: Rel, right: Side) -> Cond
    ensures { result ≡ tests.relation_of left sign right }
{
    Cond::Relation(expr_of(left.what), sign, expr_of(right.what))
}

/// A test that was read.
pub fn read_test(cond: Cond, setting: Option<Setting>, count: u32) -> Read
    ensures { result ≡ tests.read_test cond setting count }
{
    Read {
        prim: Primary::Test(cond, setting),
        count,
        pending_not: false,
    }
}

/// Reads the sign test of this left side.
#[tactic(auto, unfolding(cobol_grammar::specs::cond_forms::Test::sign_test))]
pub fn sign_test(
    cursor: &mut Cursor<'_>,
    negated: bool,
    left: Side,
    count: u32,
) -> Result<Read, Unread>
    ensures { Reads ((tests.sign_test negated left count).reads cursor.old) result cursor.new }
{
    match sign_word(cursor) {
        Ok(sign) => {
            cursor.note(number_fault(&left));
            Ok(read_test(Cond::SignIs(expr_of(left.what), sign, negated), None, count))
        }
        Err(stop) => {
            drop(left);
            Err(stop)
        }
    }
}

#[tactic(auto, unfolding(cobol_grammar::specs::cond_forms::Test::class_of_ref))]
fn class_of_ref(
    cursor: &Cursor<'_>,
    negated: bool,
    class: ClassKind,
    what: ParsedExpr,
    count: u32,
) -> Result<Read, Unread>
    ensures { Reads ((tests.class_of_ref negated class what count).reads cursor.now)
        result cursor.now }
{
    match what {
        ParsedExpr::Ref(place) => Ok(read_test(Cond::Class(place, class, negated), None, count)),
        other => {
            drop(other);
            Err(Unread::Stop(Why::Syntax))
        }
    }
}

#[tactic(auto, unfolding(cobol_grammar::specs::cond_forms::Test::class_test))]
fn class_test(
    cursor: &mut Cursor<'_>,
    negated: bool,
    left: Side,
    count: u32,
) -> Result<Read, Unread>
    ensures { Reads ((tests.class_test negated left count).reads cursor.old) result cursor.new }
{
    match class_word(cursor) {
        Ok(class) => {
            cursor.note(value_fault(&left));
            class_of_ref(cursor, negated, class, left.what, count)
        }
        Err(stop) => {
            drop(left);
            Err(stop)
        }
    }
}

/// A side that no test follows.
#[tactic(auto, unfolding(cobol_grammar::specs::cond_forms::Test::untested))]
fn untested(cursor: &Cursor<'_>, end: Option<bool>, left: Side, count: u32) -> Result<Read, Unread>
    ensures { Reads ((tests.untested end left count).reads cursor.now) result cursor.now }
{
    match end {
        None => {
            drop(left);
            Err(Unread::Stop(Why::Syntax))
        }
        Some(pending_not) => Ok(Read {
            prim: Primary::Alone(left),
            count,
            pending_not,
        }),
    }
}

/// Reads the class test of a reference, or takes the side as one that no test follows.
#[tactic(auto, unfolding(cobol_grammar::specs::cond_forms::Test::class_or))]
pub fn class_or(
    cursor: &mut Cursor<'_>,
    shape: ExprForm,
    negated: bool,
    end: Option<bool>,
    left: Side,
    count: u32,
) -> Result<Read, Unread>
    ensures { Reads ((tests.class_or shape negated end left count).reads cursor.old)
        result cursor.new }
{
    match shape {
        ExprForm::Ref => {
            if at_class(cursor) {
                class_test(cursor, negated, left, count)
            } else {
                untested(cursor, end, left, count)
            }
        }
        _ => untested(cursor, end, left, count),
    }
}
