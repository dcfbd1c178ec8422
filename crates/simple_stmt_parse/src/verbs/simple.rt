//! Statements that hold no others.

ghost use Rattle.parser_combinators.specs.Reading.{Reads};
ghost use Rattle.cobol_grammar.specs.stmt_forms.Stmt as forms;

use crate::verbs::file::{close_stmt, open_stmt, rewrite_stmt, write_stmt};
use crate::verbs::jump::jump_stmt;
use crate::verbs::moving::{display_stmt, move_stmt, set_stmts};
use cob_base::Items;
use cob_tree::Stmt;
use cobol_grammar::part_readers::{Parts, at_filing, at_moving, drop_stmts, stmt_added};
use cobol_grammar::stmt_forms::Scope;
use parser_combinators::{Cursor, Unread};
use std::alloc::Global;

#[tactic(auto, unfolding(cobol_grammar::specs::stmt_forms::Stmt::moving_stmt))]
fn moving_stmt<P: Parts>(parts: &P, alloc: Global, cursor: &mut Cursor<'_>) -> Result<Stmt, Unread>
    ensures { Reads ((forms.moving_stmt (P.parts parts.now)).reads cursor.old) result cursor.new }
{
    if cursor.sees(b"DISPLAY") {
        display_stmt(parts, alloc, cursor)
    } else {
        move_stmt(parts, alloc, cursor)
    }
}

#[tactic(auto, unfolding(cobol_grammar::specs::stmt_forms::Stmt::moving_stmts))]
fn moving_stmts<P: Parts>(
    parts: &P,
    alloc: Global,
    cursor: &mut Cursor<'_>,
    found: Items<Stmt>,
) -> Result<Items<Stmt>, Unread>
    ensures { Reads ((forms.moving_stmts (P.parts parts.now) found).reads cursor.old)
        result cursor.new }
{
    if cursor.sees(b"SET") {
        set_stmts(parts, alloc, cursor, found)
    } else {
        match moving_stmt(parts, alloc, cursor) {
            Ok(next) => Ok(stmt_added(found, next)?),
            Err(stop) => {
                drop_stmts(found);
                Err(stop)
            }
        }
    }
}

#[tactic(auto, unfolding(cobol_grammar::specs::stmt_forms::Stmt::writing_stmt))]
fn writing_stmt<P: Parts>(parts: &P, alloc: Global, cursor: &mut Cursor<'_>) -> Result<Stmt, Unread>
    ensures { Reads ((forms.writing_stmt (P.parts parts.now)).reads cursor.old) result cursor.new }
{
    if cursor.sees(b"WRITE") {
        write_stmt(parts, alloc, cursor)
    } else {
        rewrite_stmt(parts, alloc, cursor)
    }
}

#[tactic(auto, unfolding(cobol_grammar::specs::stmt_forms::Stmt::filing_stmt))]
fn filing_stmt<P: Parts>(parts: &P, alloc: Global, cursor: &mut Cursor<'_>) -> Result<Stmt, Unread>
    ensures { Reads ((forms.filing_stmt (P.parts parts.now)).reads cursor.old) result cursor.new }
{
    if cursor.sees(b"OPEN") {
        open_stmt(parts, alloc, cursor)
    } else if cursor.sees(b"CLOSE") {
        close_stmt(parts, alloc, cursor)
    } else {
        writing_stmt(parts, alloc, cursor)
    }
}

#[tactic(auto, unfolding(cobol_grammar::specs::stmt_forms::Stmt::filing_or_jump))]
fn filing_or_jump<P: Parts>(
    parts: &P,
    alloc: Global,
    cursor: &mut Cursor<'_>,
    scope: Scope,
) -> Result<Stmt, Unread>
    ensures { Reads ((forms.filing_or_jump (P.parts parts.now) scope).reads cursor.old)
        result cursor.new }
{
    if at_filing(cursor) {
        filing_stmt(parts, alloc, cursor)
    } else {
        jump_stmt(parts, alloc, cursor, scope)
    }
}

/// Reads a statement that holds no other, and adds it to those that were found.
#[tactic(auto, unfolding(cobol_grammar::specs::stmt_forms::Stmt::simple_stmts))]
pub fn simple_stmts<P: Parts>(
    parts: &P,
    alloc: Global,
    cursor: &mut Cursor<'_>,
    scope: Scope,
    found: Items<Stmt>,
) -> Result<Items<Stmt>, Unread>
    ensures { Reads ((forms.simple_stmts (P.parts parts.now) scope found).reads cursor.old)
        result cursor.new }
{
    if at_moving(cursor) {
        moving_stmts(parts, alloc, cursor, found)
    } else {
        match filing_or_jump(parts, alloc, cursor, scope) {
            Ok(next) => Ok(stmt_added(found, next)?),
            Err(stop) => {
                drop_stmts(found);
                Err(stop)
            }
        }
    }
}
