//! Names of files, of records that are written, and of procedures.

ghost use Rattle.std.specs.Prelude.{◌≡◌, []};
ghost use Rattle.parser_combinators.specs.Form as form;
ghost use Rattle.parser_combinators.specs.Reading.{Reads};
ghost use Rattle.parser_combinators.specs.words.Word as spelled;
ghost use Rattle.cobol_grammar.specs.expr_forms.Fault as faults;
ghost use Rattle.symbol_tables.specs.data_names.Look.{look};
ghost use Rattle.cobol_grammar.specs.Name as words;

use cob_base::{Items, Word};
use cob_tree::Entry;
use cob_words::{left_out, reserved};
use cobol_grammar::expr_forms::Side;
use cobol_lex::TokenKind;
use expr_parse::actions::ref_side;
use parser_combinators::words::name;
use parser_combinators::{Cursor, NameKind, Note, Position, Unread, Why};
use std::alloc::Global;
use symbol_tables::data_names::{NameTable, Referent};
use symbol_tables::procedure_names::header_name as name_of;

#[tactic(auto, unfolding(parser_combinators::specs::words::Word::is_free))]
fn is_free(word: &Word) -> bool
    ensures { result ≡ spelled.is_free word.now }
{
    !reserved(word) && !left_out(word)
}

/// Whether a word that isn't reserved is next.
pub fn at_user_word(cursor: &Cursor<'_>) -> bool
    ensures { result ≡ form.is_next spelled.is_user_word cursor.now }
{
    match cursor.peek() {
        Some(TokenKind::Word(word)) => is_free(word),
        _ => false,
    }
}

fn fault_at(kind: NameKind, position: Position) -> Option<Note>
    ensures { result ≡ faults.fault_at kind position }
{
    Some(Note { kind, position })
}

fn file_fault(file: Option<u32>, position: Position) -> Option<Note>
    ensures { result ≡ words.file_fault file position }
{
    match file {
        None => fault_at(NameKind::Unknown, position),
        Some(_) => None,
    }
}

/// Takes the name of a file, and gives its number.
#[tactic(auto, unfolding(cobol_grammar::specs::Name::file))]
pub fn file(cursor: &mut Cursor<'_>, names: &NameTable) -> Result<Option<u32>, Unread>
    ensures { Reads ((words.file names.now).reads cursor.old) result cursor.new }
{
    let (word, position) = name(cursor)?;
    let file = names.look_file(&word);
    cursor.note(file_fault(file, position));
    Ok(file)
}

fn is_record_entry(entry: &Entry) -> bool
    ensures { result ≡ words.is_record_entry (Some entry.now) }
{
    entry.level == 1 && entry.file.is_some()
}

fn is_record(entries: &[Entry], item: u32) -> bool
    ensures { result ≡ words.is_record entries.now item }
{
    match entries.get(item as usize) {
        None => false,
        Some(entry) => is_record_entry(entry),
    }
}

fn record_fault(entries: &[Entry], found: Referent, position: Position) -> Option<Note>
    ensures { result ≡ words.record_fault entries.now found position }
{
    match found {
        Referent::Unknown => fault_at(NameKind::Unknown, position),
        Referent::Ambiguous => fault_at(NameKind::Ambiguous, position),
        Referent::Item { item, .. } => {
            if is_record(entries, item) {
                None
            } else {
                fault_at(NameKind::Usage, position)
            }
        }
    }
}

fn as_record(entries: &[Entry], found: Referent) -> Referent
    ensures { result ≡ words.as_record entries.now found }
{
    match found {
        Referent::Unknown => Referent::Unknown,
        Referent::Ambiguous => Referent::Unknown,
        Referent::Item { item, kind, dims } => {
            if is_record(entries, item) {
                Referent::Item { item, kind, dims }
            } else {
                Referent::Unknown
            }
        }
    }
}

fn look_alone(names: &NameTable, word: &Word) -> Referent
    ensures { result ≡ look names.now word.now [] }
{
    names.look(word, &[])
}

/// Takes the name of a record that is written.
#[tactic(auto, unfolding(cobol_grammar::specs::Name::record_name))]
pub fn record_name(
    alloc: Global,
    cursor: &mut Cursor<'_>,
    names: &NameTable,
    entries: &[Entry],
) -> Result<Side, Unread>
    ensures { Reads ((words.record_name names.now entries.now).reads cursor.old) result cursor.new }
{
    let (word, position) = name(cursor)?;
    let found = look_alone(names, &word);
    cursor.note(record_fault(entries, found, position));
    let record = as_record(entries, found);
    Ok(ref_side(record, Items::new(alloc), Items::new(alloc), None, position))
}

fn next_name(cursor: &Cursor<'_>) -> Option<Word>
    ensures { result ≡ words.name_next (form.next cursor.now.rest) }
{
    match cursor.peek() {
        None => None,
        Some(kind) => name_of(kind),
    }
}

/// Takes the name in the header of a paragraph or section, with its position.
#[tactic(auto, unfolding(cobol_grammar::specs::Name::header_name), using(crate::proofs::operand_uses_lemmas::HeaderLemmas::names_read))]
pub fn header_name(cursor: &mut Cursor<'_>) -> Result<(Word, Position), Unread>
    ensures { Reads (words.header_name.reads cursor.old) result cursor.new }
{
    match next_name(cursor) {
        None => Err(Unread::Stop(Why::Syntax)),
        Some(name) => {
            let position = Position {
                index: cursor.index(),
                line: cursor.fault_line(&[]),
            };
            cursor.skip();
            Ok((name, position))
        }
    }
}
