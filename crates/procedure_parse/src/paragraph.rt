//! Sentences, paragraphs and sections, and the whole division.

ghost use Rattle.std.specs.Prelude.{◌≡◌};
ghost use Rattle.cob_base.specs.Answers.{Makes};
ghost use Rattle.parser_combinators.specs.Form as form;
ghost use Rattle.parser_combinators.specs.Reading.{Reads};
ghost use Rattle.cobol_grammar.specs.stmt_forms.Paragraph as forms;
ghost use Rattle.procedure_parse.specs.Step as steps;

use crate::drafts::{
    FoundStmts, drop_outline, drop_paragraphs, drop_sentences, drop_stmts, paragraph_added,
    sentence_added, stmt_added,
};
use crate::statements::{StmtContext, stmts_from, stmts_with};
use cob_base::limit::MAX_NESTING;
use cob_base::{Items, NoMemory, Word};
use cob_tree::{Paragraph, Sentence, Stmt};
use cobol_grammar::part_readers::{Parts, at_procedure, at_stmt};
use cobol_grammar::stmt_forms::{Outline, Scope};
use parser_combinators::{Cursor, Position, Unread, Why};
use simple_stmt_parse::verbs::exit_behind;
use std::alloc::Global;

#[tactic(auto, unfolding(cobol_grammar::specs::stmt_forms::Paragraph::sentence_closed))]
fn sentence_closed(cursor: &mut Cursor<'_>, stmts: Items<Stmt>) -> Result<Sentence, Unread>
    ensures { Reads ((forms.sentence_closed stmts).reads cursor.old) result cursor.new }
{
    match cursor.period() {
        Ok(_) => Ok(Sentence { stmts }),
        Err(stop) => {
            drop_stmts(stmts);
            Err(stop)
        }
    }
}

#[tactic(auto, unfolding(cobol_grammar::specs::stmt_forms::Paragraph::sentence_end))]
fn sentence_end(cursor: &mut Cursor<'_>, found: FoundStmts) -> Result<Sentence, Unread>
    ensures { Reads ((forms.sentence_end found).reads cursor.old) result cursor.new }
{
    let FoundStmts { stmts, pending_not } = found;
    if pending_not {
        drop_stmts(stmts);
        Err(Unread::Stop(Why::Syntax))
    } else {
        sentence_closed(cursor, stmts)
    }
}

#[tactic(auto, unfolding(cobol_grammar::specs::stmt_forms::Paragraph::sentence))]
fn sentence<P: Parts>(
    parts: &P,
    alloc: Global,
    cursor: &mut Cursor<'_>,
    scope: Scope,
) -> Result<Sentence, Unread>
    ensures { Reads ((forms.sentence (P.parts parts.now) scope).reads cursor.old)
        result cursor.new }
{
    let context = StmtContext {
        alloc,
        scope,
        levels: MAX_NESTING,
    };
    let found = stmts_with(parts, cursor, context)?;
    sentence_end(cursor, found)
}

/// Reads one more sentence.
fn sentence_behind<P: Parts>(
    parts: &P,
    alloc: Global,
    cursor: &mut Cursor<'_>,
    scope: Scope,
    found: Items<Sentence>,
) -> Result<Items<Sentence>, Unread>
    ensures { Reads ((form.added (forms.sentence (P.parts parts.now) scope) found).reads cursor.old)
        result cursor.new }
{
    match sentence(parts, alloc, cursor, scope) {
        Ok(next) => Ok(sentence_added(found, next)?),
        Err(stop) => {
            drop_sentences(found);
            Err(stop)
        }
    }
}

fn sentences_from<P: Parts>(
    parts: &P,
    alloc: Global,
    cursor: &mut Cursor<'_>,
    scope: Scope,
    mut found: Items<Sentence>,
) -> Result<Items<Sentence>, Unread>
    ensures { Reads ((forms.sentences_from (P.parts parts.now) scope found).reads cursor.old)
        result cursor.new }
{
    'items: while at_stmt(cursor) {
        found = sentence_behind(parts, alloc, cursor, scope, found)?;
    }
    Ok(found)
}

fn at_exit_word(cursor: &Cursor<'_>) -> bool
    ensures { result ≡ form.is_next forms.begins_exit_word cursor.now }
{
    cursor.sees(b"PARAGRAPH") || (cursor.sees(b"SECTION") || cursor.sees(b"PERFORM"))
}

#[tactic(auto, unfolding(cobol_grammar::specs::stmt_forms::Paragraph::exit_alone))]
fn exit_alone(alloc: Global, cursor: &mut Cursor<'_>) -> Result<Items<Sentence>, Unread>
    ensures { Reads (forms.exit_alone.reads cursor.old) result cursor.new }
{
    cursor.period()?;
    let stmts = stmt_added(Items::new(alloc), Stmt::Exit)?;
    Ok(sentence_added(Items::new(alloc), Sentence { stmts })?)
}

#[tactic(auto, unfolding(cobol_grammar::specs::stmt_forms::Paragraph::exit_sentence))]
fn exit_sentence<P: Parts>(
    parts: &P,
    alloc: Global,
    cursor: &mut Cursor<'_>,
    scope: Scope,
    position: Position,
) -> Result<Sentence, Unread>
    ensures { Reads ((forms.exit_sentence (P.parts parts.now) scope position).reads cursor.old)
        result cursor.new }
{
    let first = exit_behind(cursor, scope, position)?;
    let first = FoundStmts {
        stmts: stmt_added(Items::new(alloc), first)?,
        pending_not: false,
    };
    let context = StmtContext {
        alloc,
        scope,
        levels: MAX_NESTING,
    };
    let found = stmts_from(parts, cursor, context, first)?;
    sentence_end(cursor, found)
}

#[tactic(auto, unfolding(cobol_grammar::specs::stmt_forms::Paragraph::exit_sentences))]
fn exit_sentences<P: Parts>(
    parts: &P,
    alloc: Global,
    cursor: &mut Cursor<'_>,
    scope: Scope,
    position: Position,
) -> Result<Items<Sentence>, Unread>
    ensures { Reads ((forms.exit_sentences (P.parts parts.now) scope position).reads cursor.old)
        result cursor.new }
{
    let first = exit_sentence(parts, alloc, cursor, scope, position)?;
    let found = sentence_added(Items::new(alloc), first)?;
    sentences_from(parts, alloc, cursor, scope, found)
}

#[tactic(auto, unfolding(cobol_grammar::specs::stmt_forms::Paragraph::sentences_by_exit))]
fn sentences_by_exit<P: Parts>(
    parts: &P,
    alloc: Global,
    cursor: &mut Cursor<'_>,
    scope: Scope,
) -> Result<Items<Sentence>, Unread>
    ensures { Reads ((forms.sentences_by_exit (P.parts parts.now) scope).reads cursor.old)
        result cursor.new }
{
    let position = cursor.key(b"EXIT")?;
    if at_exit_word(cursor) {
        exit_sentences(parts, alloc, cursor, scope, position)
    } else {
        exit_alone(alloc, cursor)
    }
}

#[tactic(auto, unfolding(cobol_grammar::specs::stmt_forms::Paragraph::sentences))]
fn sentences<P: Parts>(
    parts: &P,
    alloc: Global,
    cursor: &mut Cursor<'_>,
    scope: Scope,
) -> Result<Items<Sentence>, Unread>
    ensures { Reads ((forms.sentences (P.parts parts.now) scope).reads cursor.old)
        result cursor.new }
{
    if cursor.sees(b"EXIT") {
        sentences_by_exit(parts, alloc, cursor, scope)
    } else {
        sentences_from(parts, alloc, cursor, scope, Items::new(alloc))
    }
}

/// The paragraphs, with an empty one for a section that has none.
fn with_pending(
    alloc: Global,
    pending: Option<Word>,
    done: Items<Paragraph>,
) -> Result<Items<Paragraph>, NoMemory>
    ensures { Makes (forms.with_pending pending done) result }
{
    match pending {
        None => Ok(done),
        Some(section) => {
            let empty = Paragraph {
                name: None,
                section: Some(section),
                sentences: Items::new(alloc),
            };
            paragraph_added(done, empty)
        }
    }
}

fn scope_of(in_section: bool) -> Scope
    ensures { result ≡ forms.scope_of in_section }
{
    Scope {
        in_loop: false,
        in_section,
    }
}

#[tactic(auto, unfolding(cobol_grammar::specs::stmt_forms::Paragraph::section_start))]
fn section_start<P: Parts>(
    parts: &P,
    alloc: Global,
    cursor: &mut Cursor<'_>,
    name: Word,
    done: Items<Paragraph>,
) -> Result<Outline, Unread>
    ensures { Reads ((forms.section_start (P.parts parts.now) name done).reads cursor.old)
        result cursor.new }
{
    match sentences(parts, alloc, cursor, scope_of(true)) {
        Ok(sentences) => {
            let first = Paragraph {
                name: None,
                section: Some(name),
                sentences,
            };
            Ok(Outline {
                done: paragraph_added(done, first)?,
                pending: None,
                in_section: true,
            })
        }
        Err(stop) => {
            drop(name);
            drop_paragraphs(done);
            Err(stop)
        }
    }
}

/// Reads a section after its header.
fn section_behind<P: Parts>(
    parts: &P,
    alloc: Global,
    cursor: &mut Cursor<'_>,
    name: Word,
    done: Items<Paragraph>,
) -> Result<Outline, Unread>
    ensures { Reads ((steps.section_behind (P.parts parts.now) name done).reads cursor.old)
        result cursor.new }
{
    if at_stmt(cursor) {
        section_start(parts, alloc, cursor, name, done)
    } else {
        Ok(Outline {
            done,
            pending: Some(name),
            in_section: true,
        })
    }
}

/// Begins a section, once the one before it is complete.
fn section_begun<P: Parts>(
    parts: &P,
    alloc: Global,
    cursor: &mut Cursor<'_>,
    name: Word,
    state: Outline,
) -> Result<Outline, Unread>
    ensures { Reads ((steps.section_behind (P.parts parts.now) name
        (forms.with_pending state.pending state.done)).reads cursor.old)
        result cursor.new }
{
    let Outline { done, pending, .. } = state;
    match with_pending(alloc, pending, done) {
        Ok(done) => section_behind(parts, alloc, cursor, name, done),
        Err(fault) => {
            drop(name);
            Err(Unread::from(fault))
        }
    }
}

/// Takes the period of a section's header, and begins the section.
fn section_closed<P: Parts>(
    parts: &P,
    alloc: Global,
    cursor: &mut Cursor<'_>,
    name: Word,
    state: Outline,
) -> Result<Outline, Unread>
    ensures { Reads ((steps.section_closed (P.parts parts.now) name state).reads cursor.old)
        result cursor.new }
{
    match cursor.period() {
        Ok(_) => section_begun(parts, alloc, cursor, name, state),
        Err(stop) => {
            drop(name);
            drop_outline(state);
            Err(stop)
        }
    }
}

#[tactic(auto, unfolding(cobol_grammar::specs::stmt_forms::Paragraph::section))]
fn section<P: Parts>(
    parts: &P,
    alloc: Global,
    cursor: &mut Cursor<'_>,
    name: Word,
    state: Outline,
) -> Result<Outline, Unread>
    ensures { Reads ((forms.section (P.parts parts.now) name state).reads cursor.old)
        result cursor.new }
{
    match cursor.key(b"SECTION") {
        Ok(_) => section_closed(parts, alloc, cursor, name, state),
        Err(stop) => {
            drop(name);
            drop_outline(state);
            Err(stop)
        }
    }
}

/// Reads a paragraph after its header.
fn paragraph_behind<P: Parts>(
    parts: &P,
    alloc: Global,
    cursor: &mut Cursor<'_>,
    name: Word,
    state: Outline,
) -> Result<Outline, Unread>
    ensures { Reads ((steps.paragraph_behind (P.parts parts.now) name state).reads cursor.old)
        result cursor.new }
{
    let Outline {
        done,
        pending,
        in_section,
    } = state;
    match sentences(parts, alloc, cursor, scope_of(in_section)) {
        Ok(sentences) => {
            let next = Paragraph {
                name: Some(name),
                section: pending,
                sentences,
            };
            Ok(Outline {
                done: paragraph_added(done, next)?,
                pending: None,
                in_section,
            })
        }
        Err(stop) => {
            drop(name);
            drop(pending);
            drop_paragraphs(done);
            Err(stop)
        }
    }
}

#[tactic(auto, unfolding(cobol_grammar::specs::stmt_forms::Paragraph::paragraph))]
fn paragraph<P: Parts>(
    parts: &P,
    alloc: Global,
    cursor: &mut Cursor<'_>,
    name: Word,
    state: Outline,
) -> Result<Outline, Unread>
    ensures { Reads ((forms.paragraph (P.parts parts.now) name state).reads cursor.old)
        result cursor.new }
{
    match cursor.period() {
        Ok(_) => paragraph_behind(parts, alloc, cursor, name, state),
        Err(stop) => {
            drop(name);
            drop_outline(state);
            Err(stop)
        }
    }
}

#[tactic(auto, unfolding(cobol_grammar::specs::stmt_forms::Paragraph::headed))]
fn headed<P: Parts>(
    parts: &P,
    alloc: Global,
    cursor: &mut Cursor<'_>,
    state: Outline,
) -> Result<Outline, Unread>
    ensures { Reads ((forms.headed (P.parts parts.now) state).reads cursor.old) result cursor.new }
{
    match parts.header_name(cursor) {
        Ok((name, position)) => {
            cursor.note(parts.duplicate_fault(&name, position));
            if cursor.sees(b"SECTION") {
                section(parts, alloc, cursor, name, state)
            } else {
                paragraph(parts, alloc, cursor, name, state)
            }
        }
        Err(stop) => {
            drop_outline(state);
            Err(stop)
        }
    }
}

fn headed_from<P: Parts>(
    parts: &P,
    alloc: Global,
    cursor: &mut Cursor<'_>,
    mut state: Outline,
) -> Result<Outline, Unread>
    ensures { Reads ((forms.headed_from (P.parts parts.now) state).reads cursor.old)
        result cursor.new }
{
    'headers: while at_procedure(parts, cursor) {
        state = headed(parts, alloc, cursor, state)?;
    }
    Ok(state)
}

#[tactic(auto, unfolding(cobol_grammar::specs::stmt_forms::Paragraph::unnamed_start))]
fn unnamed_start<P: Parts>(
    parts: &P,
    alloc: Global,
    cursor: &mut Cursor<'_>,
) -> Result<Outline, Unread>
    ensures { Reads ((forms.unnamed_start (P.parts parts.now)).reads cursor.old) result cursor.new }
{
    let sentences = sentences(parts, alloc, cursor, scope_of(false))?;
    let first = Paragraph {
        name: None,
        section: None,
        sentences,
    };
    Ok(Outline {
        done: paragraph_added(Items::new(alloc), first)?,
        pending: None,
        in_section: false,
    })
}

#[tactic(auto, unfolding(cobol_grammar::specs::stmt_forms::Paragraph::start))]
fn start<P: Parts>(parts: &P, alloc: Global, cursor: &mut Cursor<'_>) -> Result<Outline, Unread>
    ensures { Reads ((forms.start (P.parts parts.now)).reads cursor.old) result cursor.new }
{
    if at_stmt(cursor) {
        unnamed_start(parts, alloc, cursor)
    } else {
        Ok(Outline {
            done: Items::new(alloc),
            pending: None,
            in_section: false,
        })
    }
}

fn at_least_one(alloc: Global, done: Items<Paragraph>) -> Result<Items<Paragraph>, NoMemory>
    ensures { Makes (forms.at_least_one done) result }
{
    if done.as_slice().is_empty() {
        let empty = Paragraph {
            name: None,
            section: None,
            sentences: Items::new(alloc),
        };
        paragraph_added(done, empty)
    } else {
        Ok(done)
    }
}

fn all_of(alloc: Global, state: Outline) -> Result<Items<Paragraph>, NoMemory>
    ensures { Makes (forms.all_of state) result }
{
    let Outline { done, pending, .. } = state;
    let done = with_pending(alloc, pending, done)?;
    at_least_one(alloc, done)
}

#[tactic(auto, unfolding(cobol_grammar::specs::stmt_forms::Paragraph::paragraphs))]
fn paragraphs<P: Parts>(
    parts: &P,
    alloc: Global,
    cursor: &mut Cursor<'_>,
) -> Result<Items<Paragraph>, Unread>
    ensures { Reads ((forms.paragraphs (P.parts parts.now)).reads cursor.old) result cursor.new }
{
    let first = start(parts, alloc, cursor)?;
    let state = headed_from(parts, alloc, cursor, first)?;
    let found = all_of(alloc, state)?;
    Ok(found)
}

#[tactic(auto, unfolding(cobol_grammar::specs::stmt_forms::Paragraph::program_name))]
fn program_name<P: Parts>(parts: &P, cursor: &mut Cursor<'_>) -> Result<(), Unread>
    ensures { Reads ((forms.program_name (P.parts parts.now)).reads cursor.old) result cursor.new }
{
    if parts.at_name(cursor) {
        cursor.word()?;
        Ok(())
    } else {
        Err(Unread::Stop(Why::Syntax))
    }
}

#[tactic(auto, unfolding(cobol_grammar::specs::stmt_forms::Paragraph::end_program))]
fn end_program<P: Parts>(parts: &P, cursor: &mut Cursor<'_>) -> Result<(), Unread>
    ensures { Reads ((forms.end_program (P.parts parts.now)).reads cursor.old) result cursor.new }
{
    cursor.key(b"END")?;
    cursor.key(b"PROGRAM")?;
    program_name(parts, cursor)?;
    cursor.period()?;
    Ok(())
}

#[tactic(auto, unfolding(cobol_grammar::specs::stmt_forms::Paragraph::end_part))]
fn end_part<P: Parts>(parts: &P, cursor: &mut Cursor<'_>) -> Result<(), Unread>
    ensures { Reads ((forms.end_part (P.parts parts.now)).reads cursor.old) result cursor.new }
{
    if cursor.sees(b"END") {
        end_program(parts, cursor)
    } else {
        Ok(())
    }
}

/// What was found, where no token is left.
fn division_ended(
    cursor: &mut Cursor<'_>,
    found: Items<Paragraph>,
) -> Result<Items<Paragraph>, Unread>
    ensures { Reads ((steps.division_ended found).reads cursor.old)
        result cursor.new }
{
    match cursor.ended() {
        Ok(_) => Ok(found),
        Err(stop) => {
            drop_paragraphs(found);
            Err(stop)
        }
    }
}

/// Reads the whole division after its header, up to the last token.
#[tactic(auto, unfolding(cobol_grammar::specs::stmt_forms::Paragraph::division))]
pub fn division<P: Parts>(
    parts: &P,
    alloc: Global,
    cursor: &mut Cursor<'_>,
) -> Result<Items<Paragraph>, Unread>
    ensures { Reads ((forms.division (P.parts parts.now)).reads cursor.old) result cursor.new }
{
    let found = paragraphs(parts, alloc, cursor)?;
    match end_part(parts, cursor) {
        Ok(()) => division_ended(cursor, found),
        Err(stop) => {
            drop_paragraphs(found);
            Err(stop)
        }
    }
}
