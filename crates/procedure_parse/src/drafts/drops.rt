//! What is read of a program is dropped by these calls: an implicit drop is checked with the drops
//! of all types in the tree, in each function that has one; that of a call only once.

use cob_base::{Boxed, Items};
use cob_tree::{
    Calc, Cond, Control, Paragraph, Place, Sentence, Stmt, Subject, Target, Test, When,
};
use cobol_grammar::stmt_forms::Outline;

/// Drops statements.
pub fn drop_stmts(_stmts: Items<Stmt>) {}

/// Drops the statements of an arm.
pub fn drop_arm(_stmts: Option<Items<Stmt>>) {}

/// Drops what is computed, and where the result goes.
pub fn drop_work(_calc: Boxed<Calc>, _into: Items<Target>) {}

/// Drops a place.
pub fn drop_place(_place: Option<Boxed<Place>>) {}

/// Drops a condition.
pub fn drop_cond(_cond: Boxed<Cond>) {}

/// Drops the subject of EVALUATE.
pub fn drop_subject(_subject: Boxed<Subject>) {}

/// Drops the tests of a WHEN.
pub fn drop_tests(_tests: Items<Test>) {}

/// Drops WHENs.
pub fn drop_whens(_whens: Items<When>) {}

/// Drops the control of a PERFORM.
pub fn drop_control(_control: Boxed<Control>) {}

/// Drops sentences.
pub fn drop_sentences(_sentences: Items<Sentence>) {}

/// Drops paragraphs.
pub fn drop_paragraphs(_paragraphs: Items<Paragraph>) {}

/// Drops what is read of a division so far.
pub fn drop_outline(_state: Outline) {}
