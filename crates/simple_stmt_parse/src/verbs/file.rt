//! Statements on files that hold no others.

ghost use Rattle.std.specs.Prelude.{◌≡◌};
ghost use Rattle.parser_combinators.specs.Form as form;
ghost use Rattle.parser_combinators.specs.Reading.{Reads};
ghost use Rattle.cobol_grammar.specs.stmt_forms.File as forms;

use crate::verbs::moving::value;
use cob_base::Items;
use cob_tree::{How, Opening, Operand, Stmt};
use cobol_grammar::part_readers::Parts;
use cobol_lex::TokenKind;
use parser_combinators::{Cursor, Unread, Why};
use std::alloc::Global;

#[tactic(auto, unfolding(cobol_grammar::specs::stmt_forms::File::file_name))]
fn file_name<P: Parts>(parts: &P, cursor: &mut Cursor<'_>) -> Result<u32, Unread>
    ensures { Reads ((forms.file_name (P.parts parts.now)).reads cursor.old) result cursor.new }
{
    match parts.file(cursor)? {
        None => Ok(0),
        Some(index) => Ok(index),
    }
}

#[tactic(auto, unfolding(cobol_grammar::specs::stmt_forms::File::how_of_word))]
fn how_of_word(word: &[u8]) -> Option<How>
    ensures { result ≡ forms.how_of_word word.now }
{
    if word == b"INPUT".as_slice() {
        Some(How::Input)
    } else if word == b"OUTPUT".as_slice() {
        Some(How::Output)
    } else if word == b"I-O".as_slice() {
        Some(How::InOut)
    } else if word == b"EXTEND".as_slice() {
        Some(How::Extend)
    } else {
        None
    }
}

fn next_how(cursor: &Cursor<'_>) -> Option<How>
    ensures { result ≡ forms.how_next cursor.now.rest }
{
    match cursor.peek() {
        Some(TokenKind::Word(word)) => how_of_word(word.as_slice()),
        _ => None,
    }
}

#[tactic(auto, unfolding(cobol_grammar::specs::stmt_forms::File::begins_opening))]
fn at_opening(cursor: &Cursor<'_>) -> bool
    ensures { result ≡ form.is_next forms.begins_opening cursor.now }
{
    next_how(cursor).is_some()
}

fn how(cursor: &mut Cursor<'_>) -> Result<How, Unread>
    ensures { Reads (forms.how.reads cursor.old) result cursor.new }
{
    match next_how(cursor) {
        Some(how) => {
            cursor.skip();
            Ok(how)
        }
        None => Err(Unread::Stop(Why::Syntax)),
    }
}

#[tactic(auto, unfolding(cobol_grammar::specs::stmt_forms::File::open_one))]
fn open_one<P: Parts>(parts: &P, cursor: &mut Cursor<'_>, how: How) -> Result<Opening, Unread>
    ensures { Reads ((forms.open_one (P.parts parts.now) how).reads cursor.old) result cursor.new }
{
    let file = file_name(parts, cursor)?;
    Ok(Opening { how, file })
}

fn open_more<P: Parts>(
    parts: &P,
    cursor: &mut Cursor<'_>,
    how: How,
    mut found: Items<Opening>,
) -> Result<Items<Opening>, Unread>
    ensures { Reads ((forms.open_more (P.parts parts.now) how found).reads cursor.old)
        result cursor.new }
{
    'items: while parts.at_name(cursor) {
        found.push(open_one(parts, cursor, how)?)?;
    }
    Ok(found)
}

#[tactic(auto, unfolding(cobol_grammar::specs::stmt_forms::File::open_group))]
fn open_group<P: Parts>(
    parts: &P,
    cursor: &mut Cursor<'_>,
    mut found: Items<Opening>,
) -> Result<Items<Opening>, Unread>
    ensures { Reads ((forms.open_group (P.parts parts.now) found).reads cursor.old)
        result cursor.new }
{
    let how = how(cursor)?;
    let first = open_one(parts, cursor, how)?;
    found.push(first)?;
    open_more(parts, cursor, how, found)
}

fn open_groups<P: Parts>(
    parts: &P,
    cursor: &mut Cursor<'_>,
    mut found: Items<Opening>,
) -> Result<Items<Opening>, Unread>
    ensures { Reads ((forms.open_groups (P.parts parts.now) found).reads cursor.old)
        result cursor.new }
{
    'groups: while at_opening(cursor) {
        found = open_group(parts, cursor, found)?;
    }
    Ok(found)
}

/// Reads OPEN.
#[tactic(auto, unfolding(cobol_grammar::specs::stmt_forms::File::open_stmt))]
pub fn open_stmt<P: Parts>(
    parts: &P,
    alloc: Global,
    cursor: &mut Cursor<'_>,
) -> Result<Stmt, Unread>
    ensures { Reads ((forms.open_stmt (P.parts parts.now)).reads cursor.old) result cursor.new }
{
    cursor.key(b"OPEN")?;
    let first = open_group(parts, cursor, Items::new(alloc))?;
    let all = open_groups(parts, cursor, first)?;
    Ok(Stmt::Opens(all))
}

fn file_names<P: Parts>(
    parts: &P,
    alloc: Global,
    cursor: &mut Cursor<'_>,
) -> Result<Items<u32>, Unread>
    ensures { Reads ((forms.file_names (P.parts parts.now)).reads cursor.old) result cursor.new }
{
    let mut found = Items::new(alloc);
    found.push(file_name(parts, cursor)?)?;
    'items: while parts.at_name(cursor) {
        found.push(file_name(parts, cursor)?)?;
    }
    Ok(found)
}

/// Reads CLOSE.
#[tactic(auto, unfolding(cobol_grammar::specs::stmt_forms::File::close_stmt))]
pub fn close_stmt<P: Parts>(
    parts: &P,
    alloc: Global,
    cursor: &mut Cursor<'_>,
) -> Result<Stmt, Unread>
    ensures { Reads ((forms.close_stmt (P.parts parts.now)).reads cursor.old) result cursor.new }
{
    cursor.key(b"CLOSE")?;
    let files = file_names(parts, alloc, cursor)?;
    Ok(Stmt::Closes(files))
}

#[tactic(auto, unfolding(cobol_grammar::specs::stmt_forms::File::from_operand))]
fn from_operand<P: Parts>(
    parts: &P,
    alloc: Global,
    cursor: &mut Cursor<'_>,
    target: &P::Side,
) -> Result<Option<Operand>, Unread>
    ensures { Reads ((forms.from_operand (P.parts parts.now) target.now).reads cursor.old)
        result cursor.new }
{
    cursor.key(b"FROM")?;
    let side = value(parts, alloc, cursor)?;
    cursor.note(parts.move_fault(&side, target));
    Ok(Some(parts.operand_of(side)))
}

#[tactic(auto, unfolding(cobol_grammar::specs::stmt_forms::File::from_part))]
fn from_part<P: Parts>(
    parts: &P,
    alloc: Global,
    cursor: &mut Cursor<'_>,
    target: &P::Side,
) -> Result<Option<Operand>, Unread>
    ensures { Reads ((forms.from_part (P.parts parts.now) target.now).reads cursor.old)
        result cursor.new }
{
    if cursor.sees(b"FROM") {
        from_operand(parts, alloc, cursor, target)
    } else {
        Ok(None)
    }
}

/// Reads WRITE.
#[tactic(auto, unfolding(cobol_grammar::specs::stmt_forms::File::write_stmt))]
pub fn write_stmt<P: Parts>(
    parts: &P,
    alloc: Global,
    cursor: &mut Cursor<'_>,
) -> Result<Stmt, Unread>
    ensures { Reads ((forms.write_stmt (P.parts parts.now)).reads cursor.old) result cursor.new }
{
    cursor.key(b"WRITE")?;
    let target = parts.record_name(alloc, cursor)?;
    let from = from_part(parts, alloc, cursor, &target)?;
    cursor.maybe(b"END-WRITE");
    let entry = parts.entry_of(&target);
    Ok(Stmt::Write { entry, from })
}

/// Reads REWRITE.
#[tactic(auto, unfolding(cobol_grammar::specs::stmt_forms::File::rewrite_stmt))]
pub fn rewrite_stmt<P: Parts>(
    parts: &P,
    alloc: Global,
    cursor: &mut Cursor<'_>,
) -> Result<Stmt, Unread>
    ensures { Reads ((forms.rewrite_stmt (P.parts parts.now)).reads cursor.old) result cursor.new }
{
    cursor.key(b"REWRITE")?;
    let target = parts.record_name(alloc, cursor)?;
    let from = from_part(parts, alloc, cursor, &target)?;
    cursor.maybe(b"END-REWRITE");
    let entry = parts.entry_of(&target);
    Ok(Stmt::Rewrite { entry, from })
}
