//! Steps that drop what was found where they fail.
//!
//! The first is generic, so that its drops are checked without those of the types in a tree.

ghost use Rattle.parser_combinators.specs.Reading.{Reads};
ghost use Rattle.procedure_parse.specs.drafts.Step as steps;

use crate::drafts::found_stmts::FoundStmts;
use crate::drafts::made::Draft;
use cob_base::Items;
use cob_tree::Stmt;
use cobol_grammar::stmt_forms::ArithmeticVerb;
use parser_combinators::{Cursor, Unread};
use stmt_head_parse::heads::{end_word, end_work};

fn ended<T: Drop>(
    cursor: &mut Cursor<'_>,
    word: &[u8],
    found: T,
    pending_not: bool,
) -> Result<(T, bool), Unread>
    ensures { Reads ((steps.ended word.now found pending_not).reads cursor.old)
        result cursor.new }
{
    match end_word(cursor, word, pending_not) {
        Ok(()) => Ok((found, pending_not)),
        Err(stop) => {
            drop(found);
            Err(stop)
        }
    }
}

/// Takes the word that ends a statement, unless NOT was read.
pub fn draft_ended(
    cursor: &mut Cursor<'_>,
    word: &[u8],
    found: Draft,
    pending_not: bool,
) -> Result<(Draft, bool), Unread>
    ensures { Reads ((steps.ended word.now found pending_not).reads cursor.old)
        result cursor.new }
{
    ended(cursor, word, found, pending_not)
}

/// The same, where the statement has been added to others already.
pub fn stmts_ended(
    cursor: &mut Cursor<'_>,
    word: &[u8],
    found: Items<Stmt>,
    pending_not: bool,
) -> Result<FoundStmts, Unread>
    ensures { Reads ((steps.ended word.now found pending_not).reads cursor.old)
        result cursor.new }
{
    match ended(cursor, word, found, pending_not) {
        Ok((stmts, pending_not)) => Ok(FoundStmts { stmts, pending_not }),
        Err(stop) => Err(stop),
    }
}

/// Takes the word that ends arithmetic, unless NOT was read.
pub fn work_ended(
    cursor: &mut Cursor<'_>,
    verb: ArithmeticVerb,
    found: Draft,
    pending_not: bool,
) -> Result<(Draft, bool), Unread>
    ensures { Reads ((steps.work_ended verb found pending_not).reads cursor.old)
        result cursor.new }
{
    match end_work(cursor, verb, pending_not) {
        Ok(()) => Ok((found, pending_not)),
        Err(stop) => {
            drop(found);
            Err(stop)
        }
    }
}
