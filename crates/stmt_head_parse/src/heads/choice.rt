//! IF and EVALUATE up to the statements that they hold.

ghost use Rattle.std.specs.Prelude.{◌≡◌};
ghost use Rattle.parser_combinators.specs.Form as form;
ghost use Rattle.parser_combinators.specs.Reading.{Reads};
ghost use Rattle.cobol_grammar.specs.stmt_forms.Choice as forms;
ghost use Rattle.cobol_grammar.specs.stmt_forms.Stmt as all;

use crate::heads::arms::enter_level;
use cob_base::Items;
use cob_tree::{Cond, Expr, Subject, Test};
use cobol_grammar::part_readers::{Parts, drop_condition, drop_expr, drop_tests, test_added};
use parser_combinators::{Cursor, Unread, Why};
use std::alloc::Global;

#[tactic(auto, unfolding(cobol_grammar::specs::stmt_forms::Choice::settled))]
fn settled(cursor: &Cursor<'_>, found: (Cond, bool)) -> Result<Cond, Unread>
    ensures { Reads ((forms.settled found).reads cursor.now) result cursor.now }
{
    let (cond, pending_not) = found;
    if pending_not {
        drop_condition(cond);
        Err(Unread::Stop(Why::Syntax))
    } else {
        Ok(cond)
    }
}

#[tactic(auto, unfolding(cobol_grammar::specs::stmt_forms::Choice::test_cond))]
fn test_cond<P: Parts>(parts: &P, alloc: Global, cursor: &mut Cursor<'_>) -> Result<Cond, Unread>
    ensures { Reads ((forms.test_cond (P.parts parts.now)).reads cursor.old) result cursor.new }
{
    let found = parts.cond(alloc, cursor)?;
    settled(cursor, found)
}

/// Reads IF up to its statements.
#[tactic(auto, unfolding(cobol_grammar::specs::stmt_forms::Choice::if_head))]
pub fn if_head<P: Parts>(
    parts: &P,
    alloc: Global,
    cursor: &mut Cursor<'_>,
    levels: u32,
) -> Result<Cond, Unread>
    ensures { Reads ((forms.if_head (P.parts parts.now) (all.enter_level levels)).reads cursor.old)
        result cursor.new }
{
    enter_level(cursor, levels)?;
    cursor.key(b"IF")?;
    let cond = test_cond(parts, alloc, cursor)?;
    cursor.maybe(b"THEN");
    Ok(cond)
}

#[tactic(auto, unfolding(cobol_grammar::specs::stmt_forms::Choice::truth_subject))]
fn truth_subject<P: Parts>(
    parts: &P,
    cursor: &mut Cursor<'_>,
) -> Result<(Subject, Option<P::Known>), Unread>
    ensures { Reads ((forms.truth_subject (P.parts parts.now)).reads cursor.old) result cursor.new }
{
    if cursor.sees(b"TRUE") {
        cursor.key(b"TRUE")?;
        Ok((Subject::True, None))
    } else {
        cursor.key(b"FALSE")?;
        Ok((Subject::False, None))
    }
}

#[tactic(auto, unfolding(cobol_grammar::specs::stmt_forms::Choice::value_subject))]
fn value_subject<P: Parts>(
    parts: &P,
    alloc: Global,
    cursor: &mut Cursor<'_>,
) -> Result<(Subject, Option<P::Known>), Unread>
    ensures { Reads ((forms.value_subject (P.parts parts.now)).reads cursor.old) result cursor.new }
{
    let side = parts.expr(alloc, cursor)?;
    cursor.note(parts.value_fault(&side));
    let known = parts.known_of(&side);
    Ok((Subject::Value(parts.expr_of(side)), Some(known)))
}

fn at_truth(cursor: &Cursor<'_>) -> bool
    ensures { result ≡ form.is_next forms.begins_truth cursor.now }
{
    cursor.sees(b"TRUE") || cursor.sees(b"FALSE")
}

#[tactic(auto, unfolding(cobol_grammar::specs::stmt_forms::Choice::subject))]
fn subject<P: Parts>(
    parts: &P,
    alloc: Global,
    cursor: &mut Cursor<'_>,
) -> Result<(Subject, Option<P::Known>), Unread>
    ensures { Reads ((forms.subject (P.parts parts.now)).reads cursor.old) result cursor.new }
{
    if at_truth(cursor) {
        truth_subject(parts, cursor)
    } else {
        value_subject(parts, alloc, cursor)
    }
}

#[tactic(auto, unfolding(cobol_grammar::specs::stmt_forms::Choice::any_test))]
fn any_test(cursor: &mut Cursor<'_>) -> Result<Test, Unread>
    ensures { Reads (forms.any_test.reads cursor.old) result cursor.new }
{
    cursor.key(b"ANY")?;
    Ok(Test::Any)
}

#[tactic(auto, unfolding(cobol_grammar::specs::stmt_forms::Choice::cond_test))]
fn cond_test<P: Parts>(parts: &P, alloc: Global, cursor: &mut Cursor<'_>) -> Result<Test, Unread>
    ensures { Reads ((forms.cond_test (P.parts parts.now)).reads cursor.old) result cursor.new }
{
    let cond = test_cond(parts, alloc, cursor)?;
    Ok(Test::Holds(cond))
}

#[tactic(auto, unfolding(cobol_grammar::specs::stmt_forms::Choice::compared))]
fn compared<P: Parts>(
    parts: &P,
    alloc: Global,
    cursor: &mut Cursor<'_>,
    known: &P::Known,
) -> Result<Expr, Unread>
    ensures { Reads ((forms.compared (P.parts parts.now) known.now).reads cursor.old)
        result cursor.new }
{
    let side = parts.expr(alloc, cursor)?;
    cursor.note(parts.value_fault(&side));
    cursor.note(parts.subject_fault(known, &side));
    Ok(parts.expr_of(side))
}

#[tactic(auto, unfolding(cobol_grammar::specs::stmt_forms::Choice::negation))]
fn negation(cursor: &mut Cursor<'_>) -> Result<bool, Unread>
    ensures { Reads (forms.negation.reads cursor.old) result cursor.new }
{
    if cursor.sees(b"NOT") {
        cursor.key(b"NOT")?;
        Ok(true)
    } else {
        Ok(false)
    }
}

/// Whether THRU or THROUGH is next.
pub fn at_thru(cursor: &Cursor<'_>) -> bool
    ensures { result ≡ form.is_next forms.begins_thru cursor.now }
{
    cursor.sees(b"THRU") || cursor.sees(b"THROUGH")
}

/// Reads THRU or THROUGH.
#[tactic(auto, unfolding(cobol_grammar::specs::stmt_forms::Choice::thru))]
pub fn thru(cursor: &mut Cursor<'_>) -> Result<(), Unread>
    ensures { Reads (forms.thru.reads cursor.old) result cursor.new }
{
    if cursor.sees(b"THRU") {
        cursor.key(b"THRU")?;
    } else {
        cursor.key(b"THROUGH")?;
    }
    Ok(())
}

#[tactic(auto, unfolding(cobol_grammar::specs::stmt_forms::Choice::last_value))]
fn last_value<P: Parts>(
    parts: &P,
    alloc: Global,
    cursor: &mut Cursor<'_>,
    known: &P::Known,
) -> Result<Option<Expr>, Unread>
    ensures { Reads ((forms.last_value (P.parts parts.now) known.now).reads cursor.old)
        result cursor.new }
{
    thru(cursor)?;
    let last = compared(parts, alloc, cursor, known)?;
    Ok(Some(last))
}

#[tactic(auto, unfolding(cobol_grammar::specs::stmt_forms::Choice::last_part))]
fn last_part<P: Parts>(
    parts: &P,
    alloc: Global,
    cursor: &mut Cursor<'_>,
    known: &P::Known,
) -> Result<Option<Expr>, Unread>
    ensures { Reads ((forms.last_part (P.parts parts.now) known.now).reads cursor.old)
        result cursor.new }
{
    if at_thru(cursor) {
        last_value(parts, alloc, cursor, known)
    } else {
        Ok(None)
    }
}

#[tactic(auto, unfolding(cobol_grammar::specs::stmt_forms::Choice::value_test))]
fn value_test<P: Parts>(
    parts: &P,
    alloc: Global,
    cursor: &mut Cursor<'_>,
    known: &P::Known,
) -> Result<Test, Unread>
    ensures { Reads ((forms.value_test (P.parts parts.now) known.now).reads cursor.old)
        result cursor.new }
{
    let not = negation(cursor)?;
    let from = compared(parts, alloc, cursor, known)?;
    match last_part(parts, alloc, cursor, known) {
        Ok(to) => Ok(Test::Value { not, from, to }),
        Err(stop) => {
            drop_expr(from);
            Err(stop)
        }
    }
}

#[tactic(auto, unfolding(cobol_grammar::specs::stmt_forms::Choice::test_by))]
fn test_by<P: Parts>(
    parts: &P,
    alloc: Global,
    cursor: &mut Cursor<'_>,
    known: &Option<P::Known>,
) -> Result<Test, Unread>
    ensures { Reads ((forms.test_by (P.parts parts.now) known.now).reads cursor.old)
        result cursor.new }
{
    match known {
        None => cond_test(parts, alloc, cursor),
        Some(known) => value_test(parts, alloc, cursor, known),
    }
}

#[tactic(auto, unfolding(cobol_grammar::specs::stmt_forms::Choice::one_test))]
fn one_test<P: Parts>(
    parts: &P,
    alloc: Global,
    cursor: &mut Cursor<'_>,
    known: &Option<P::Known>,
) -> Result<Test, Unread>
    ensures { Reads ((forms.one_test (P.parts parts.now) known.now).reads cursor.old)
        result cursor.new }
{
    if cursor.sees(b"ANY") {
        any_test(cursor)
    } else {
        test_by(parts, alloc, cursor, known)
    }
}

#[tactic(auto, unfolding(cobol_grammar::specs::stmt_forms::Choice::next_test))]
fn next_test<P: Parts>(
    parts: &P,
    alloc: Global,
    cursor: &mut Cursor<'_>,
    known: &Option<P::Known>,
) -> Result<Test, Unread>
    ensures { Reads ((forms.next_test (P.parts parts.now) known.now).reads cursor.old)
        result cursor.new }
{
    cursor.key(b"WHEN")?;
    one_test(parts, alloc, cursor, known)
}

/// Reads one more test.
fn test_behind<P: Parts>(
    parts: &P,
    alloc: Global,
    cursor: &mut Cursor<'_>,
    known: &Option<P::Known>,
    found: Items<Test>,
) -> Result<Items<Test>, Unread>
    ensures { Reads ((form.added (forms.next_test (P.parts parts.now) known.now) found).reads
        cursor.old) result cursor.new }
{
    match next_test(parts, alloc, cursor, known) {
        Ok(next) => Ok(test_added(found, next)?),
        Err(stop) => {
            drop_tests(found);
            Err(stop)
        }
    }
}

fn more_tests<P: Parts>(
    parts: &P,
    alloc: Global,
    cursor: &mut Cursor<'_>,
    known: &Option<P::Known>,
    mut found: Items<Test>,
) -> Result<Items<Test>, Unread>
    ensures { Reads ((forms.more_tests (P.parts parts.now) known.now found).reads cursor.old)
        result cursor.new }
{
    'items: while cursor.sees(b"WHEN") {
        found = test_behind(parts, alloc, cursor, known, found)?;
    }
    Ok(found)
}

#[tactic(auto, unfolding(cobol_grammar::specs::stmt_forms::Choice::all_tests))]
fn all_tests<P: Parts>(
    parts: &P,
    alloc: Global,
    cursor: &mut Cursor<'_>,
    known: &Option<P::Known>,
) -> Result<Items<Test>, Unread>
    ensures { Reads ((forms.all_tests (P.parts parts.now) known.now).reads cursor.old)
        result cursor.new }
{
    let first = one_test(parts, alloc, cursor, known)?;
    let found = test_added(Items::new(alloc), first)?;
    more_tests(parts, alloc, cursor, known, found)
}

/// Reads the first tests of EVALUATE.
#[tactic(auto, unfolding(cobol_grammar::specs::stmt_forms::Choice::first_tests))]
pub fn first_tests<P: Parts>(
    parts: &P,
    alloc: Global,
    cursor: &mut Cursor<'_>,
    known: &Option<P::Known>,
) -> Result<Items<Test>, Unread>
    ensures { Reads ((forms.first_tests (P.parts parts.now) known.now).reads cursor.old)
        result cursor.new }
{
    cursor.key(b"WHEN")?;
    all_tests(parts, alloc, cursor, known)
}

#[tactic(auto, unfolding(cobol_grammar::specs::stmt_forms::Choice::other_words))]
fn other_words(cursor: &mut Cursor<'_>) -> Result<Option<Items<Test>>, Unread>
    ensures { Reads (forms.other_words.reads cursor.old) result cursor.new }
{
    cursor.key(b"OTHER")?;
    Ok(None)
}

/// Reads the tests after a further WHEN, or OTHER, which gives none.
#[tactic(auto, unfolding(cobol_grammar::specs::stmt_forms::Choice::when_head))]
pub fn when_head<P: Parts>(
    parts: &P,
    alloc: Global,
    cursor: &mut Cursor<'_>,
    known: &Option<P::Known>,
) -> Result<Option<Items<Test>>, Unread>
    ensures { Reads ((forms.when_head (P.parts parts.now) known.now).reads cursor.old)
        result cursor.new }
{
    cursor.key(b"WHEN")?;
    if cursor.sees(b"OTHER") {
        other_words(cursor)
    } else {
        let tests = all_tests(parts, alloc, cursor, known)?;
        Ok(Some(tests))
    }
}

/// Reads EVALUATE and its subject.
#[tactic(auto, unfolding(cobol_grammar::specs::stmt_forms::Choice::evaluate_head))]
pub fn evaluate_head<P: Parts>(
    parts: &P,
    alloc: Global,
    cursor: &mut Cursor<'_>,
    levels: u32,
) -> Result<(Subject, Option<P::Known>), Unread>
    ensures { Reads
        ((forms.evaluate_head (P.parts parts.now) (all.enter_level levels)).reads cursor.old)
        result cursor.new }
{
    enter_level(cursor, levels)?;
    cursor.key(b"EVALUATE")?;
    subject(parts, alloc, cursor)
}
