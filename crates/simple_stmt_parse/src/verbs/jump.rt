//! Jumps, and statements that do nothing.

ghost use Rattle.std.specs.Prelude.{◌≡◌};
ghost use Rattle.parser_combinators.specs.Reading.{Reads};
ghost use Rattle.cobol_grammar.specs.stmt_forms.Jump as forms;

use cob_base::Items;
use cob_tree::Stmt;
use cobol_grammar::part_readers::{Parts, at_procedure, procedure};
use cobol_grammar::stmt_forms::Scope;
use parser_combinators::{Cursor, NameKind, Note, Position, Unread, Why};
use std::alloc::Global;

#[tactic(auto, unfolding(cobol_grammar::specs::stmt_forms::Jump::procedure_entry))]
fn procedure_entry<P: Parts>(
    parts: &P,
    alloc: Global,
    cursor: &mut Cursor<'_>,
) -> Result<u32, Unread>
    ensures { Reads ((forms.procedure_entry (P.parts parts.now)).reads cursor.old)
        result cursor.new }
{
    let (entry, _) = procedure(parts, alloc, cursor)?;
    Ok(entry)
}

fn more_entries<P: Parts>(
    parts: &P,
    alloc: Global,
    cursor: &mut Cursor<'_>,
    mut found: Items<u32>,
) -> Result<Items<u32>, Unread>
    ensures { Reads ((forms.more_entries (P.parts parts.now) found).reads cursor.old)
        result cursor.new }
{
    'items: while at_procedure(parts, cursor) {
        found.push(procedure_entry(parts, alloc, cursor)?)?;
    }
    Ok(found)
}

#[tactic(auto, unfolding(cobol_grammar::specs::stmt_forms::Jump::go_alone))]
fn go_alone(cursor: &mut Cursor<'_>, to: &Items<u32>) -> Result<Stmt, Unread>
    ensures { Reads ((forms.go_alone to.now).reads cursor.old) result cursor.new }
{
    match to.as_slice() {
        [to] => Ok(Stmt::Go(*to)),
        _ => Err(Unread::Stop(Why::Syntax)),
    }
}

#[tactic(auto, unfolding(cobol_grammar::specs::stmt_forms::Jump::go_depending))]
fn go_depending<P: Parts>(
    parts: &P,
    alloc: Global,
    cursor: &mut Cursor<'_>,
    to: Items<u32>,
) -> Result<Stmt, Unread>
    ensures { Reads ((forms.go_depending (P.parts parts.now) to).reads cursor.old)
        result cursor.new }
{
    cursor.key(b"DEPENDING")?;
    cursor.maybe(b"ON");
    let side = parts.reference(alloc, cursor)?;
    cursor.note(parts.whole_fault(&side));
    let on = parts.place_of(side);
    Ok(Stmt::GoDepending { to, on })
}

#[tactic(auto, unfolding(cobol_grammar::specs::stmt_forms::Jump::go_stmt))]
fn go_stmt<P: Parts>(parts: &P, alloc: Global, cursor: &mut Cursor<'_>) -> Result<Stmt, Unread>
    ensures { Reads ((forms.go_stmt (P.parts parts.now)).reads cursor.old) result cursor.new }
{
    cursor.key(b"GO")?;
    cursor.maybe(b"TO");
    let first = procedure_entry(parts, alloc, cursor)?;
    let mut to = Items::new(alloc);
    to.push(first)?;
    let to = more_entries(parts, alloc, cursor, to)?;
    if cursor.sees(b"DEPENDING") {
        go_depending(parts, alloc, cursor, to)
    } else {
        go_alone(cursor, &to)
    }
}

fn usage_unless(holds: bool, position: Position) -> Option<Note>
    ensures { result ≡ forms.usage_unless holds position }
{
    if holds {
        None
    } else {
        Some(Note {
            kind: NameKind::Usage,
            position,
        })
    }
}

#[tactic(auto, unfolding(cobol_grammar::specs::stmt_forms::Jump::exit_paragraph))]
fn exit_paragraph(cursor: &mut Cursor<'_>) -> Result<Stmt, Unread>
    ensures { Reads (forms.exit_paragraph.reads cursor.old) result cursor.new }
{
    cursor.key(b"PARAGRAPH")?;
    Ok(Stmt::ExitParagraph)
}

#[tactic(auto, unfolding(cobol_grammar::specs::stmt_forms::Jump::exit_section))]
fn exit_section(cursor: &mut Cursor<'_>, scope: Scope, position: Position) -> Result<Stmt, Unread>
    ensures { Reads ((forms.exit_section scope position).reads cursor.old) result cursor.new }
{
    cursor.key(b"SECTION")?;
    cursor.note(usage_unless(scope.in_section, position));
    Ok(Stmt::ExitSection)
}

#[tactic(auto, unfolding(cobol_grammar::specs::stmt_forms::Jump::cycle))]
fn cycle(cursor: &mut Cursor<'_>) -> Result<bool, Unread>
    ensures { Reads (forms.cycle.reads cursor.old) result cursor.new }
{
    if cursor.sees(b"CYCLE") {
        cursor.key(b"CYCLE")?;
        Ok(true)
    } else {
        Ok(false)
    }
}

#[tactic(auto, unfolding(cobol_grammar::specs::stmt_forms::Jump::exit_perform))]
fn exit_perform(cursor: &mut Cursor<'_>, scope: Scope, position: Position) -> Result<Stmt, Unread>
    ensures { Reads ((forms.exit_perform scope position).reads cursor.old) result cursor.new }
{
    cursor.key(b"PERFORM")?;
    let cycle = cycle(cursor)?;
    cursor.note(usage_unless(scope.in_loop, position));
    Ok(Stmt::ExitPerform { cycle })
}

/// Reads what comes after EXIT; `position` is that of EXIT.
#[tactic(auto, unfolding(cobol_grammar::specs::stmt_forms::Jump::exit_behind))]
pub fn exit_behind(
    cursor: &mut Cursor<'_>,
    scope: Scope,
    position: Position,
) -> Result<Stmt, Unread>
    ensures { Reads ((forms.exit_behind scope position).reads cursor.old) result cursor.new }
{
    if cursor.sees(b"PARAGRAPH") {
        exit_paragraph(cursor)
    } else if cursor.sees(b"SECTION") {
        exit_section(cursor, scope, position)
    } else {
        exit_perform(cursor, scope, position)
    }
}

#[tactic(auto, unfolding(cobol_grammar::specs::stmt_forms::Jump::exit_stmt))]
fn exit_stmt(cursor: &mut Cursor<'_>, scope: Scope) -> Result<Stmt, Unread>
    ensures { Reads ((forms.exit_stmt scope).reads cursor.old) result cursor.new }
{
    let position = cursor.key(b"EXIT")?;
    exit_behind(cursor, scope, position)
}

#[tactic(auto, unfolding(cobol_grammar::specs::stmt_forms::Jump::next_sentence))]
fn next_sentence(cursor: &mut Cursor<'_>) -> Result<Stmt, Unread>
    ensures { Reads (forms.next_sentence.reads cursor.old) result cursor.new }
{
    cursor.key(b"NEXT")?;
    cursor.key(b"SENTENCE")?;
    Ok(Stmt::NextSentence)
}

#[tactic(auto, unfolding(cobol_grammar::specs::stmt_forms::Jump::stop_run))]
fn stop_run(cursor: &mut Cursor<'_>) -> Result<Stmt, Unread>
    ensures { Reads (forms.stop_run.reads cursor.old) result cursor.new }
{
    cursor.key(b"STOP")?;
    cursor.key(b"RUN")?;
    Ok(Stmt::StopRun)
}

#[tactic(auto, unfolding(cobol_grammar::specs::stmt_forms::Jump::continue_stmt))]
fn continue_stmt(cursor: &mut Cursor<'_>) -> Result<Stmt, Unread>
    ensures { Reads (forms.continue_stmt.reads cursor.old) result cursor.new }
{
    cursor.key(b"CONTINUE")?;
    Ok(Stmt::Continue)
}

#[tactic(auto, unfolding(cobol_grammar::specs::stmt_forms::Jump::still_stmt))]
fn still_stmt(cursor: &mut Cursor<'_>) -> Result<Stmt, Unread>
    ensures { Reads (forms.still_stmt.reads cursor.old) result cursor.new }
{
    if cursor.sees(b"NEXT") {
        next_sentence(cursor)
    } else if cursor.sees(b"STOP") {
        stop_run(cursor)
    } else {
        continue_stmt(cursor)
    }
}

/// Reads GO TO, NEXT SENTENCE, STOP RUN, EXIT or CONTINUE.
#[tactic(auto, unfolding(cobol_grammar::specs::stmt_forms::Jump::jump_stmt))]
pub fn jump_stmt<P: Parts>(
    parts: &P,
    alloc: Global,
    cursor: &mut Cursor<'_>,
    scope: Scope,
) -> Result<Stmt, Unread>
    ensures { Reads ((forms.jump_stmt (P.parts parts.now) scope).reads cursor.old)
        result cursor.new }
{
    if cursor.sees(b"GO") {
        go_stmt(parts, alloc, cursor)
    } else if cursor.sees(b"EXIT") {
        exit_stmt(cursor, scope)
    } else {
        still_stmt(cursor)
    }
}
