//! SELECT and the ENVIRONMENT DIVISION.

ghost use Rattle.std.specs.Prelude.{◌≡◌, codes};
ghost use Rattle.cob_base.specs.Answers.{Makes};
ghost use Rattle.parser_combinators.specs.Form as form;
ghost use Rattle.parser_combinators.specs.Part.{is_key};
ghost use Rattle.parser_combinators.specs.Reading.{Reads};
ghost use Rattle.cobol_grammar.specs.data_forms.Environment as environments;

use crate::entries::{header, pushed, sees_either};
use crate::status::StatusReader;
use cob_base::{Items, NoMemory, Text};
use cobol_grammar::data_forms::{SelectDraft, StatusDraft};
use parser_combinators::words::{name, sees_text, user_word};
use parser_combinators::{Cursor, Position, Unread};
use std::alloc::Global;

#[tactic(auto, unfolding(cobol_grammar::specs::data_forms::Environment::assign))]
fn assign(alloc: Global, cursor: &mut Cursor<'_>) -> Result<(Text, Position), Unread>
    ensures { Reads (environments.assign.reads cursor.old) result cursor.new }
{
    if sees_text(cursor) {
        cursor.literal(alloc)
    } else {
        let (word, at) = user_word(cursor)?;
        Ok((bytes_of(alloc, word.as_slice())?, at))
    }
}

fn bytes_of(alloc: Global, bytes: &[u8]) -> Result<Text, NoMemory>
    ensures { Makes bytes.now result }
{
    Ok(Text {
        bytes: Vec::from_slice(alloc, bytes)?,
    })
}

fn sees_organization(cursor: &Cursor<'_>) -> bool
    ensures { result ≡ form.is_next environments.is_organization cursor.now }
{
    sees_either(cursor, b"ORGANIZATION", b"SEQUENTIAL")
}

#[tactic(auto, unfolding(cobol_grammar::specs::data_forms::Environment::organization))]
fn organization(cursor: &mut Cursor<'_>) -> Result<Position, Unread>
    ensures { Reads (environments.organization.reads cursor.old) result cursor.new }
{
    if cursor.sees(b"ORGANIZATION") {
        cursor.key(b"ORGANIZATION")?;
        cursor.maybe(b"IS");
        cursor.key(b"SEQUENTIAL")
    } else {
        cursor.key(b"SEQUENTIAL")
    }
}

#[tactic(auto, unfolding(cobol_grammar::specs::data_forms::Environment::access))]
fn access(cursor: &mut Cursor<'_>) -> Result<Position, Unread>
    ensures { Reads (environments.access.reads cursor.old) result cursor.new }
{
    cursor.key(b"ACCESS")?;
    cursor.maybe(b"MODE");
    cursor.maybe(b"IS");
    cursor.key(b"SEQUENTIAL")
}

fn sees_status(cursor: &Cursor<'_>) -> bool
    ensures { result ≡ form.is_next environments.is_status cursor.now }
{
    sees_either(cursor, b"FILE", b"STATUS")
}

#[tactic(auto, unfolding(cobol_grammar::specs::data_forms::Environment::file_status))]
fn file_status(cursor: &mut Cursor<'_>) -> Result<Position, Unread>
    ensures { Reads (environments.file_status.reads cursor.old) result cursor.new }
{
    let at = cursor.key(b"FILE")?;
    cursor.key(b"STATUS")?;
    Ok(at)
}

#[tactic(auto, unfolding(cobol_grammar::specs::data_forms::Environment::status_word))]
fn status_word(cursor: &mut Cursor<'_>) -> Result<Position, Unread>
    ensures { Reads (environments.status_word.reads cursor.old) result cursor.new }
{
    if cursor.sees(b"FILE") {
        file_status(cursor)
    } else {
        cursor.key(b"STATUS")
    }
}

#[tactic(auto, unfolding(cobol_grammar::specs::data_forms::Environment::status_clause))]
fn status_clause<S: StatusReader>(
    alloc: Global,
    cursor: &mut Cursor<'_>,
    reader: &S,
) -> Result<StatusDraft, Unread>
    ensures { Reads ((environments.status_clause (S.form reader.now)).reads cursor.old)
        result cursor.new }
{
    let at = status_word(cursor)?;
    cursor.maybe(b"IS");
    let place = reader.status(alloc, cursor)?;
    Ok(StatusDraft { at, place })
}

// Takes an ORGANIZATION or ACCESS clause, which changes nothing, since both are SEQUENTIAL.
#[tactic(auto, unfolding(cobol_grammar::specs::data_forms::Environment::storage_clause))]
fn storage_clause(
    cursor: &mut Cursor<'_>,
    before: Items<StatusDraft>,
) -> Result<Items<StatusDraft>, Unread>
    ensures { Reads ((environments.storage_clause before).reads cursor.old) result cursor.new }
{
    if sees_organization(cursor) {
        match organization(cursor) {
            Ok(_) => Ok(before),
            Err(stop) => {
                drop(before);
                Err(stop)
            }
        }
    } else {
        match access(cursor) {
            Ok(_) => Ok(before),
            Err(stop) => {
                drop(before);
                Err(stop)
            }
        }
    }
}

#[tactic(auto, unfolding(cobol_grammar::specs::data_forms::Environment::select_clause))]
fn select_clause<S: StatusReader>(
    alloc: Global,
    cursor: &mut Cursor<'_>,
    reader: &S,
    before: Items<StatusDraft>,
) -> Result<Items<StatusDraft>, Unread>
    ensures { Reads ((environments.select_clause (S.form reader.now) before).reads cursor.old)
        result cursor.new }
{
    if sees_status(cursor) {
        match status_clause(alloc, cursor, reader) {
            Ok(next) => Ok(pushed(before, next)?),
            Err(stop) => {
                drop(before);
                Err(stop)
            }
        }
    } else {
        storage_clause(cursor, before)
    }
}

#[tactic(auto, unfolding(cobol_grammar::specs::data_forms::Environment::begins_select_clause))]
fn sees_select_clause(cursor: &Cursor<'_>) -> bool
    ensures { result ≡ form.is_next environments.begins_select_clause cursor.now }
{
    sees_organization(cursor) || cursor.sees(b"ACCESS") || sees_status(cursor)
}

#[tactic(auto, unfolding(cobol_grammar::specs::data_forms::Environment::select_clauses))]
fn select_clauses<S: StatusReader>(
    alloc: Global,
    cursor: &mut Cursor<'_>,
    reader: &S,
) -> Result<Items<StatusDraft>, Unread>
    ensures { Reads ((environments.select_clauses (S.form reader.now)).reads cursor.old)
        result cursor.new }
{
    let mut found = Items::new(alloc);
    'items: while sees_select_clause(cursor) {
        found = select_clause(alloc, cursor, reader, found)?;
    }
    Ok(found)
}

#[tactic(auto, unfolding(cobol_grammar::specs::data_forms::Environment::select))]
fn select<S: StatusReader>(
    alloc: Global,
    cursor: &mut Cursor<'_>,
    reader: &S,
) -> Result<SelectDraft, Unread>
    ensures { Reads ((environments.select (S.form reader.now)).reads cursor.old) result cursor.new }
{
    cursor.key(b"SELECT")?;
    let (name, at) = name(cursor)?;
    cursor.key(b"ASSIGN")?;
    cursor.maybe(b"TO");
    let (assign, _) = assign(alloc, cursor)?;
    let statuses = select_clauses(alloc, cursor, reader)?;
    match cursor.period() {
        Ok(_) => Ok(SelectDraft {
            name,
            at,
            assign,
            statuses,
        }),
        Err(stop) => {
            drop(statuses);
            Err(stop)
        }
    }
}

#[tactic(auto, unfolding(cobol_grammar::specs::data_forms::Environment::computer_named))]
fn computer_named(cursor: &mut Cursor<'_>, word: &[u8]) -> Result<(), Unread>
    ensures { Reads ((environments.computer_named word.now).reads cursor.old) result cursor.new }
{
    cursor.key(word)?;
    cursor.period()?;
    user_word(cursor)?;
    cursor.period()?;
    Ok(())
}

#[tactic(auto, unfolding(cobol_grammar::specs::data_forms::Environment::computer))]
fn computer(cursor: &mut Cursor<'_>, word: &[u8]) -> Result<(), Unread>
    ensures { Reads ((environments.computer word.now).reads cursor.old) result cursor.new }
{
    if cursor.sees(word) {
        computer_named(cursor, word)
    } else {
        Ok(())
    }
}

#[tactic(auto, unfolding(cobol_grammar::specs::data_forms::Environment::configuration_section))]
fn configuration_section(cursor: &mut Cursor<'_>) -> Result<(), Unread>
    ensures { Reads (environments.configuration_section.reads cursor.old) result cursor.new }
{
    header(cursor, b"CONFIGURATION", b"SECTION")?;
    computer(cursor, b"SOURCE-COMPUTER")?;
    computer(cursor, b"OBJECT-COMPUTER")
}

#[tactic(auto, unfolding(cobol_grammar::specs::data_forms::Environment::configuration))]
fn configuration(cursor: &mut Cursor<'_>) -> Result<(), Unread>
    ensures { Reads (environments.configuration.reads cursor.old) result cursor.new }
{
    if cursor.sees(b"CONFIGURATION") {
        configuration_section(cursor)
    } else {
        Ok(())
    }
}

/// Reads one more SELECT.
fn select_behind<S: StatusReader>(
    alloc: Global,
    cursor: &mut Cursor<'_>,
    reader: &S,
    found: Items<SelectDraft>,
) -> Result<Items<SelectDraft>, Unread>
    ensures { Reads ((form.added (environments.select (S.form reader.now)) found).reads cursor.old)
        result cursor.new }
{
    match select(alloc, cursor, reader) {
        Ok(next) => Ok(pushed(found, next)?),
        Err(stop) => {
            drop(found);
            Err(stop)
        }
    }
}

fn selects_from<S: StatusReader>(
    alloc: Global,
    cursor: &mut Cursor<'_>,
    reader: &S,
    mut found: Items<SelectDraft>,
) -> Result<Items<SelectDraft>, Unread>
    ensures { Reads ((form.loop (is_key (codes "SELECT"))
        (form.added (environments.select (S.form reader.now))) found).reads cursor.old)
        result cursor.new }
{
    'items: while cursor.sees(b"SELECT") {
        found = select_behind(alloc, cursor, reader, found)?;
    }
    Ok(found)
}

fn selects<S: StatusReader>(
    alloc: Global,
    cursor: &mut Cursor<'_>,
    reader: &S,
) -> Result<Items<SelectDraft>, Unread>
    ensures { Reads ((environments.selects (S.form reader.now)).reads cursor.old)
        result cursor.new }
{
    selects_from(alloc, cursor, reader, Items::new(alloc))
}

#[tactic(auto, unfolding(cobol_grammar::specs::data_forms::Environment::input_output_section))]
fn input_output_section<S: StatusReader>(
    alloc: Global,
    cursor: &mut Cursor<'_>,
    reader: &S,
) -> Result<Items<SelectDraft>, Unread>
    ensures { Reads ((environments.input_output_section (S.form reader.now)).reads cursor.old)
        result cursor.new }
{
    header(cursor, b"INPUT-OUTPUT", b"SECTION")?;
    cursor.key(b"FILE-CONTROL")?;
    cursor.period()?;
    selects(alloc, cursor, reader)
}

#[tactic(auto, unfolding(cobol_grammar::specs::data_forms::Environment::input_output))]
fn input_output<S: StatusReader>(
    alloc: Global,
    cursor: &mut Cursor<'_>,
    reader: &S,
) -> Result<Items<SelectDraft>, Unread>
    ensures { Reads ((environments.input_output (S.form reader.now)).reads cursor.old)
        result cursor.new }
{
    if cursor.sees(b"INPUT-OUTPUT") {
        input_output_section(alloc, cursor, reader)
    } else {
        Ok(Items::new(alloc))
    }
}

#[tactic(auto, unfolding(cobol_grammar::specs::data_forms::Environment::environment_division))]
fn environment_division<S: StatusReader>(
    alloc: Global,
    cursor: &mut Cursor<'_>,
    reader: &S,
) -> Result<Items<SelectDraft>, Unread>
    ensures { Reads ((environments.environment_division (S.form reader.now)).reads cursor.old)
        result cursor.new }
{
    header(cursor, b"ENVIRONMENT", b"DIVISION")?;
    configuration(cursor)?;
    input_output(alloc, cursor, reader)
}

/// Takes the ENVIRONMENT DIVISION, where there is one, and gives its SELECTs.
#[tactic(auto, unfolding(cobol_grammar::specs::data_forms::Environment::environment))]
pub fn environment<S: StatusReader>(
    alloc: Global,
    cursor: &mut Cursor<'_>,
    reader: &S,
) -> Result<Items<SelectDraft>, Unread>
    ensures { Reads ((environments.environment (S.form reader.now)).reads cursor.old)
        result cursor.new }
{
    if cursor.sees(b"ENVIRONMENT") {
        environment_division(alloc, cursor, reader)
    } else {
        Ok(Items::new(alloc))
    }
}
