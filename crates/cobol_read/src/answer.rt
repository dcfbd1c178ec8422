//! What reading a source gives, step by step.
//!
//! `answer_of` is the steps in the order of reading. The contract of each step says by `Leads` that
//! the answer is what the rest makes of what the step gives, or else the step's refusal.

ghost use Rattle.std.specs.Prelude.{◌≡◌, ◌≤◌, IfOk, None, length};
ghost use Rattle.cob_base.specs.Answers.{Answers, Makes};
ghost use Rattle.cobol_lex.specs.Token as lexing;
ghost use Rattle.declaration_checks.specs.Declaring as declaring;
ghost use Rattle.parser_combinators.specs.Note as notes;
ghost use Rattle.parser_combinators.specs.Reading.{start};
ghost use Rattle.ref_format.specs.Joining.{program_text};
ghost use Rattle.cobol_read.specs.declared.refusal.ReadRefusal.TheVariants.{NoMemory as Memory};
ghost use Rattle.cobol_read.specs.Answer as answers;
ghost use Rattle.cobol_read.specs.Answer.{Leads};
ghost use Rattle.cobol_read.specs.LeftOut as words;
ghost use Rattle.cob_base.specs.Limit.{max_source, max_tokens};
ghost use Rattle.cobol_read.specs.Program as forms;

use crate::declarations::declarations_of;
use crate::left_out::first_left_out;
use crate::limit::{past_paragraphs, past_source, past_tokens};
use crate::program::{Declarations, ProgramDraft, program};
use crate::refusal::{ReadFault, ReadRefusal};
use cob_base::limit::{MAX_PARAGRAPHS, MAX_SOURCE, MAX_TOKENS, passed};
use cob_base::{Items, Limit, LimitKind, NoMemory};
use cob_store::sizes::storage_of;
use cob_tree::{Entry, FileEntry, ParseFault, Program};
use cobol_grammar::data_forms::Divisions;
use cobol_lex::{LexError, Token, tokens};
use declaration_checks::{Declared, declared_of};
use parser_combinators::faults::{name_fault, passed_by_one};
use parser_combinators::{Cursor, Note, Unread, Why};
use ref_format::{FormatError, ProgramText, unfold};
use std::alloc::Global;

/// A program as its tokens spell it, and the first fault of a name in it.
#[derive(Drop)]
struct Spelled {
    program: Program,
    fault: Option<Note>,
}

// ---- after the syntax

fn with_few_paragraphs(found: Program) -> Result<Program, ReadRefusal>
    ensures { result ≡ answers.with_few_paragraphs found }
{
    let count = found.paragraphs.len();
    if count <= MAX_PARAGRAPHS {
        Ok(found)
    } else {
        drop(found);
        Err(ReadRefusal::Limit(past_paragraphs(count)))
    }
}

fn within_limit(limit: Option<Limit>, found: Program) -> Result<Program, ReadRefusal>
    ensures { Leads (answers.within_storage limit found) answers.with_few_paragraphs result }
{
    match limit {
        Some(limit) => {
            drop(found);
            Err(ReadRefusal::Limit(limit))
        }
        None => Ok(found),
    }
}

fn within_storage(alloc: Global, found: Program) -> Result<Program, ReadRefusal>
    ensures { Leads (answers.named None found) answers.with_few_paragraphs result }
{
    match storage_of(alloc, found.entries.as_slice()) {
        Ok(count) => within_limit(passed(LimitKind::Storage, false, count), found),
        Err(fault) => {
            drop(found);
            Err(ReadRefusal::from(fault))
        }
    }
}

fn name_refusal(note: Note) -> ReadRefusal
    ensures { result ≡ answers.name_refusal note }
{
    let fault = name_fault(note.kind, note.position.line);
    ReadRefusal::Fault(ReadFault::Parse(ParseFault::Name(fault)))
}

fn named(spelled: Spelled) -> Result<Program, ReadRefusal>
    ensures { Leads (answers.named spelled.fault spelled.program) (answers.named None) result }
{
    let Spelled { program, fault } = spelled;
    match fault {
        Some(note) => {
            drop(program);
            Err(name_refusal(note))
        }
        None => Ok(program),
    }
}

// ---- the syntax

fn stop_refusal(why: Why, line: u32) -> ReadRefusal
    ensures { result ≡ answers.stop_refusal why line }
{
    match why {
        Why::Syntax => ReadRefusal::Fault(ReadFault::Parse(ParseFault::Syntax(line))),
        Why::Terms => ReadRefusal::Limit(passed_by_one(LimitKind::Terms)),
        Why::Parens => ReadRefusal::Limit(passed_by_one(LimitKind::Parens)),
        Why::Nesting => ReadRefusal::Limit(passed_by_one(LimitKind::Nesting)),
    }
}

fn unread_refusal(unread: Unread, line: u32) -> ReadRefusal
    ensures { result ≡ answers.unread_refusal unread line }
{
    match unread {
        Unread::Stop(why) => stop_refusal(why, line),
        Unread::NoMemory => ReadRefusal::NoMemory,
    }
}

fn earliest(early: Option<Note>, late: Option<Note>) -> Option<Note>
    ensures { result ≡ notes.earliest early late }
{
    match early {
        None => late,
        Some(early) => match late {
            None => Some(early),
            Some(late) => {
                if late.precedes(early) {
                    Some(late)
                } else {
                    Some(early)
                }
            }
        },
    }
}

fn files_in(declared: Declared) -> Items<FileEntry>
    ensures { result ≡ declared.files }
{
    let Declared { files, entries, .. } = declared;
    drop(entries);
    files
}

fn entries_in(known: Declarations) -> Items<Entry>
    ensures { result ≡ known.entries }
{
    let Declarations {
        names,
        entries,
        procedures,
        ..
    } = known;
    drop(names);
    drop(procedures);
    entries
}

fn files_of(alloc: Global, divisions: Divisions) -> Result<Items<FileEntry>, NoMemory>
    ensures { Makes (declaring.declared_of divisions).files result }
{
    match declared_of(alloc, &divisions) {
        Ok(declared) => {
            drop(divisions);
            Ok(files_in(declared))
        }
        Err(fault) => {
            drop(divisions);
            Err(fault)
        }
    }
}

// The program has the entries of the declarations.
fn program_of(alloc: Global, known: Declarations, draft: ProgramDraft) -> Result<Program, NoMemory>
    ensures { Makes (forms.program_of known draft) result }
{
    let ProgramDraft {
        divisions,
        paragraphs,
    } = draft;
    let entries = entries_in(known);
    let name = divisions.name;
    match files_of(alloc, divisions) {
        Ok(files) => Ok(Program {
            name,
            files,
            entries,
            paragraphs,
        }),
        Err(fault) => {
            drop(entries);
            drop(paragraphs);
            Err(fault)
        }
    }
}

fn spelled_of(
    alloc: Global,
    known: Declarations,
    draft: ProgramDraft,
    noted: Option<Note>,
) -> Result<Spelled, NoMemory>
    ensures { Makes (record {
      program = forms.program_of known draft;
      fault = forms.fault_in known noted;
    }) result }
{
    let fault = earliest(known.fault, noted);
    let program = program_of(alloc, known, draft)?;
    Ok(Spelled { program, fault })
}

fn parsed_with(alloc: Global, tokens: &[Token], known: Declarations) -> Result<Spelled, ReadRefusal>
    ensures { Leads
        (answers.parsed tokens.now known ((forms.program known).reads (start tokens.now)))
        (λ spelled. answers.named spelled.fault spelled.program) result }
{
    let mut cursor = Cursor::new(tokens);
    match program(alloc, &mut cursor, &known) {
        Ok(draft) => Ok(spelled_of(alloc, known, draft, cursor.fault())?),
        Err(unread) => {
            drop(known);
            Err(unread_refusal(unread, cursor.fault_line(tokens)))
        }
    }
}

fn parsed(alloc: Global, tokens: &[Token]) -> Result<Spelled, ReadRefusal>
    requires { length tokens.now ≤ max_tokens }
    ensures { Leads (answers.worded None tokens.now)
        (λ spelled. answers.named spelled.fault spelled.program) result }
{
    parsed_with(alloc, tokens, declarations_of(alloc, tokens)?)
}

// ---- before it

fn without_left_out(tokens: &[Token]) -> Result<(), ReadRefusal>
    ensures { Leads (answers.worded (words.first_left_out tokens.now) tokens.now)
        (λ _. answers.worded None tokens.now) result }
{
    match first_left_out(tokens) {
        Some(fault) => Err(ReadRefusal::Fault(fault)),
        None => Ok(()),
    }
}

fn with_few_tokens(tokens: &[Token]) -> Result<(), ReadRefusal>
    ensures few { IfOk result (λ _. length tokens.now ≤ max_tokens) }
    ensures leads { Leads (answers.with_few_tokens tokens.now)
        (λ _. answers.worded (words.first_left_out tokens.now) tokens.now) result }
{
    if tokens.len() <= MAX_TOKENS {
        Ok(())
    } else {
        Err(ReadRefusal::Limit(past_tokens(tokens.len())))
    }
}

fn lex_refusal(error: LexError) -> ReadRefusal
    ensures { result ≡ answers.lex_refusal error }
{
    match error {
        LexError::Fault(fault) => ReadRefusal::Fault(ReadFault::Lex(fault)),
        LexError::NoMemory => ReadRefusal::NoMemory,
    }
}

fn format_refusal(error: FormatError) -> ReadRefusal
    ensures { result ≡ answers.format_refusal error }
{
    match error {
        FormatError::Fault(fault) => ReadRefusal::Fault(ReadFault::Format(fault)),
        FormatError::NoMemory => ReadRefusal::NoMemory,
    }
}

fn lexed(alloc: Global, text: &ProgramText) -> Result<Items<Token>, ReadRefusal>
    ensures { Leads (answers.lexed (lexing.tokens_of text.now)) answers.with_few_tokens result }
{
    match tokens(alloc, text) {
        Ok(tokens) => Ok(tokens),
        Err(error) => Err(lex_refusal(error)),
    }
}

fn formatted(alloc: Global, bytes: &[u8]) -> Result<ProgramText, ReadRefusal>
    requires { length bytes.now ≤ max_source }
    ensures { Leads (answers.formatted (program_text bytes.now))
        (λ text. answers.lexed (lexing.tokens_of text)) result }
{
    match unfold(alloc, bytes) {
        Ok(text) => Ok(text),
        Err(error) => Err(format_refusal(error)),
    }
}

fn within_source(bytes: &[u8]) -> Result<(), ReadRefusal>
    ensures few { IfOk result (λ _. length bytes.now ≤ max_source) }
    ensures leads { Leads (answers.answer_of bytes.now)
        (λ _. answers.formatted (program_text bytes.now)) result }
{
    if bytes.len() <= MAX_SOURCE {
        Ok(())
    } else {
        Err(ReadRefusal::Limit(past_source()))
    }
}

/// What reading these bytes gives.
pub fn answer_of(alloc: Global, bytes: &[u8]) -> Result<Program, ReadRefusal>
    ensures { Answers Memory (answers.answer_of bytes.now) result }
{
    within_source(bytes)?;
    let text = formatted(alloc, bytes)?;
    let tokens = lexed(alloc, &text)?;
    drop(text);
    with_few_tokens(tokens.as_slice())?;
    without_left_out(tokens.as_slice())?;
    let spelled = parsed(alloc, tokens.as_slice())?;
    let found = named(spelled)?;
    let found = within_storage(alloc, found)?;
    with_few_paragraphs(found)
}
