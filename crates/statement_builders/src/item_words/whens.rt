//! EVALUATE of WHENs, from their tests and the lists of their arms.

ghost use Rattle.std.specs.Prelude.{◌≡◌, false, length, map, is_some, IfOk, OnOk, ◌++◌};
ghost use Rattle.control_flow_theory.specs.language.Control.{cell_chosen, seen_stmts, seen_when};
ghost use Rattle.statement_builders.specs.arms.Choosing.{IsEvaluate};
ghost use Rattle.statement_builders.specs.item_words.Lists.{branch, branches_of, AreWhens, IsAmong};

use crate::arms::{evaluate_stmt, or_continue};
use cob_base::{Copied, Items, NoMemory};
use cob_tree::{Stmt, Subject, Test as WhenTest, When};
use program_facts::own_items::is_own_subject;
use std::alloc::Global;
use std::mem;

fn when_of(alloc: Global, tests: &Items<WhenTest>, stmts: Items<Stmt>) -> Result<When, NoMemory>
    ensures { IfOk result (λ made. seen_when 0 made ≡ branch tests.now (seen_stmts 0 stmts)) }
{
    match or_continue(stmts) {
        Ok(stmts) => match tests.copy(alloc) {
            Ok(tests) => Ok(When { tests, stmts }),
            Err(fault) => {
                drop(stmts);
                Err(fault)
            }
        },
        Err(fault) => Err(fault),
    }
}

fn add_whens(
    alloc: Global,
    whens: &mut Items<When>,
    tests: &[Items<WhenTest>],
    arms: &mut [Items<Stmt>],
) -> Result<(), NoMemory>
    requires { length tests.now ≡ length arms.old }
    ensures { OnOk result (map (seen_when 0) whens.new
        ≡ map (seen_when 0) whens.old ++ branches_of tests.now (map (seen_stmts 0) arms.old)) }
{
    for at in 0..arms.len() {
        let stmts = mem::replace(&mut arms[at], Items::new(alloc));
        whens.push(when_of(alloc, &tests[at], stmts)?)?;
    }
    Ok(())
}

/// The WHENs with these tests and arms. Err also where there are more of one than of the other.
fn whens_of(
    alloc: Global,
    tests: &[Items<WhenTest>],
    arms: Vec<Items<Stmt>>,
) -> Result<Items<When>, NoMemory>
    ensures { IfOk result (λ made. AreWhens tests.now (map (seen_stmts 0) arms.items) made) }
{
    let mut arms = arms;
    if tests.len() != arms.len() {
        drop(arms);
        return Err(NoMemory);
    }
    let mut whens = Items::new(alloc);
    let added = add_whens(alloc, &mut whens, tests, arms.as_mut_slice());
    drop(arms);
    match added {
        Ok(()) => Ok(whens),
        Err(fault) => {
            drop(whens);
            Err(fault)
        }
    }
}

fn by_subject(
    subject: Subject,
    whens: Items<When>,
    other: Items<Stmt>,
    has_other: bool,
) -> Result<Stmt, NoMemory>
    ensures { IfOk result (λ made. (is_some (cell_chosen subject) ≡ false)
        × IsEvaluate subject whens has_other (seen_stmts 0 other) made) }
{
    if is_own_subject(&subject) {
        evaluate_stmt(subject, whens, other, has_other)
    } else {
        drop(subject);
        drop(whens);
        drop(other);
        Err(NoMemory)
    }
}

/// EVALUATE of the arms with these tests, and of the arm of WHEN OTHER.
pub fn among(
    alloc: Global,
    subject: Subject,
    tests: &[Items<WhenTest>],
    arms: Vec<Items<Stmt>>,
    other: Items<Stmt>,
    has_other: bool,
) -> Result<Stmt, NoMemory>
    ensures { IfOk result (λ made. IsAmong subject tests.now (map (seen_stmts 0) arms.items)
        (seen_stmts 0 other) has_other made) }
{
    match whens_of(alloc, tests, arms) {
        Ok(whens) => by_subject(subject, whens, other, has_other),
        Err(fault) => {
            drop(subject);
            drop(other);
            Err(fault)
        }
    }
}
