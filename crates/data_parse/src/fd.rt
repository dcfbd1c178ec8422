//! FD and its records.

ghost use Rattle.std.specs.Prelude.{◌≡◌, codes};
ghost use Rattle.parser_combinators.specs.Form as form;
ghost use Rattle.parser_combinators.specs.Part.{is_key};
ghost use Rattle.parser_combinators.specs.Reading.{Reads};
ghost use Rattle.parser_combinators.specs.words.Constant.{is_digits};
ghost use Rattle.cobol_grammar.specs.data_forms.Data as datas;
ghost use Rattle.cobol_grammar.specs.data_forms.Entry as entry_forms;

use crate::entries::{either, entry, header, maybe_either, pushed};
use cob_base::Items;
use cobol_grammar::data_forms::{EntryDraft, FdDraft};
use parser_combinators::words::{name, sees_digits, sees_name};
use parser_combinators::{Cursor, Unread};
use std::alloc::Global;

#[tactic(auto, unfolding(cobol_grammar::specs::data_forms::Data::maybe_to))]
fn maybe_to(alloc: Global, cursor: &mut Cursor<'_>) -> Result<(), Unread>
    ensures { Reads (datas.maybe_to.reads cursor.old) result cursor.new }
{
    if cursor.sees(b"TO") {
        cursor.key(b"TO")?;
        cursor.digits(alloc)?;
    }
    Ok(())
}

#[tactic(auto, unfolding(cobol_grammar::specs::data_forms::Data::extent))]
fn extent(alloc: Global, cursor: &mut Cursor<'_>) -> Result<(), Unread>
    ensures { Reads (datas.extent.reads cursor.old) result cursor.new }
{
    cursor.maybe(b"CONTAINS");
    cursor.digits(alloc)?;
    maybe_to(alloc, cursor)
}

#[tactic(auto, unfolding(cobol_grammar::specs::data_forms::Data::block_clause))]
fn block_clause(alloc: Global, cursor: &mut Cursor<'_>) -> Result<(), Unread>
    ensures { Reads (datas.block_clause.reads cursor.old) result cursor.new }
{
    cursor.key(b"BLOCK")?;
    extent(alloc, cursor)?;
    maybe_either(cursor, b"RECORDS", b"CHARACTERS")
}

#[tactic(auto, unfolding(cobol_grammar::specs::data_forms::Data::record_clause))]
fn record_clause(alloc: Global, cursor: &mut Cursor<'_>) -> Result<(), Unread>
    ensures { Reads (datas.record_clause.reads cursor.old) result cursor.new }
{
    cursor.key(b"RECORD")?;
    extent(alloc, cursor)?;
    cursor.maybe(b"CHARACTERS");
    Ok(())
}

#[tactic(auto, unfolding(cobol_grammar::specs::data_forms::Data::records_are))]
fn records_are(cursor: &mut Cursor<'_>) -> Result<(), Unread>
    ensures { Reads (datas.records_are.reads cursor.old) result cursor.new }
{
    either(cursor, b"RECORD", b"RECORDS")?;
    maybe_either(cursor, b"IS", b"ARE")
}

#[tactic(auto, unfolding(cobol_grammar::specs::data_forms::Data::label_clause))]
fn label_clause(cursor: &mut Cursor<'_>) -> Result<(), Unread>
    ensures { Reads (datas.label_clause.reads cursor.old) result cursor.new }
{
    cursor.key(b"LABEL")?;
    records_are(cursor)?;
    either(cursor, b"STANDARD", b"OMITTED")?;
    Ok(())
}

#[tactic(auto, unfolding(cobol_grammar::specs::data_forms::Data::next_name))]
fn next_name(cursor: &mut Cursor<'_>) -> Result<(), Unread>
    ensures { Reads ((datas.next_name tt).reads cursor.old) result cursor.new }
{
    name(cursor)?;
    Ok(())
}

#[tactic(auto, unfolding(cobol_grammar::specs::data_forms::Data::more_names))]
fn more_names(cursor: &mut Cursor<'_>) -> Result<(), Unread>
    ensures { Reads ((datas.more_names tt).reads cursor.old) result cursor.new }
{
    'items: while sees_name(cursor) {
        next_name(cursor)?;
    }
    Ok(())
}

#[tactic(auto, unfolding(cobol_grammar::specs::data_forms::Data::records_clause))]
fn records_clause(cursor: &mut Cursor<'_>) -> Result<(), Unread>
    ensures { Reads (datas.records_clause.reads cursor.old) result cursor.new }
{
    cursor.key(b"DATA")?;
    records_are(cursor)?;
    name(cursor)?;
    more_names(cursor)
}

#[tactic(auto, unfolding(cobol_grammar::specs::data_forms::Data::labelled_clause))]
fn labelled_clause(cursor: &mut Cursor<'_>) -> Result<(), Unread>
    ensures { Reads (datas.labelled_clause.reads cursor.old) result cursor.new }
{
    if cursor.sees(b"LABEL") {
        label_clause(cursor)
    } else {
        records_clause(cursor)
    }
}

#[tactic(auto, unfolding(cobol_grammar::specs::data_forms::Data::fd_clause))]
fn fd_clause(alloc: Global, cursor: &mut Cursor<'_>) -> Result<(), Unread>
    ensures { Reads ((datas.fd_clause tt).reads cursor.old) result cursor.new }
{
    if cursor.sees(b"BLOCK") {
        block_clause(alloc, cursor)
    } else if cursor.sees(b"RECORD") {
        record_clause(alloc, cursor)
    } else {
        labelled_clause(cursor)
    }
}

#[tactic(auto, unfolding(cobol_grammar::specs::data_forms::Data::begins_fd_clause))]
fn sees_fd_clause(cursor: &Cursor<'_>) -> bool
    ensures { result ≡ form.is_next datas.begins_fd_clause cursor.now }
{
    cursor.sees(b"BLOCK") || cursor.sees(b"RECORD") || cursor.sees(b"LABEL") || cursor.sees(b"DATA")
}

#[tactic(auto, unfolding(cobol_grammar::specs::data_forms::Data::fd_clauses))]
fn fd_clauses(alloc: Global, cursor: &mut Cursor<'_>) -> Result<(), Unread>
    ensures { Reads ((datas.fd_clauses tt).reads cursor.old) result cursor.new }
{
    'items: while sees_fd_clause(cursor) {
        fd_clause(alloc, cursor)?;
    }
    Ok(())
}

/// Reads one more entry.
fn entry_behind(
    alloc: Global,
    cursor: &mut Cursor<'_>,
    found: Items<EntryDraft>,
) -> Result<Items<EntryDraft>, Unread>
    ensures { Reads ((form.added entry_forms.entry found).reads cursor.old) result cursor.new }
{
    match entry(alloc, cursor) {
        Ok(next) => Ok(pushed(found, next)?),
        Err(stop) => {
            drop(found);
            Err(stop)
        }
    }
}

fn entries_from(
    alloc: Global,
    cursor: &mut Cursor<'_>,
    mut found: Items<EntryDraft>,
) -> Result<Items<EntryDraft>, Unread>
    ensures { Reads ((form.loop is_digits (form.added entry_forms.entry) found).reads cursor.old)
        result cursor.new }
{
    'items: while sees_digits(cursor) {
        found = entry_behind(alloc, cursor, found)?;
    }
    Ok(found)
}

#[tactic(auto, unfolding(cobol_grammar::specs::data_forms::Data::records))]
fn records(alloc: Global, cursor: &mut Cursor<'_>) -> Result<Items<EntryDraft>, Unread>
    ensures { Reads (datas.records.reads cursor.old) result cursor.new }
{
    let first = entry(alloc, cursor)?;
    let found = pushed(Items::new(alloc), first)?;
    entries_from(alloc, cursor, found)
}

#[tactic(auto, unfolding(cobol_grammar::specs::data_forms::Data::fd))]
fn fd(alloc: Global, cursor: &mut Cursor<'_>) -> Result<FdDraft, Unread>
    ensures { Reads (datas.fd.reads cursor.old) result cursor.new }
{
    cursor.key(b"FD")?;
    let (name, at) = name(cursor)?;
    fd_clauses(alloc, cursor)?;
    cursor.period()?;
    let entries = records(alloc, cursor)?;
    Ok(FdDraft { name, at, entries })
}

/// Reads one more FD.
fn fd_behind(
    alloc: Global,
    cursor: &mut Cursor<'_>,
    found: Items<FdDraft>,
) -> Result<Items<FdDraft>, Unread>
    ensures { Reads ((form.added datas.fd found).reads cursor.old) result cursor.new }
{
    match fd(alloc, cursor) {
        Ok(next) => Ok(pushed(found, next)?),
        Err(stop) => {
            drop(found);
            Err(stop)
        }
    }
}

fn fds_from(
    alloc: Global,
    cursor: &mut Cursor<'_>,
    mut found: Items<FdDraft>,
) -> Result<Items<FdDraft>, Unread>
    ensures { Reads ((form.loop (is_key (codes "FD")) (form.added datas.fd) found).reads cursor.old)
        result cursor.new }
{
    'items: while cursor.sees(b"FD") {
        found = fd_behind(alloc, cursor, found)?;
    }
    Ok(found)
}

#[tactic(auto, unfolding(cobol_grammar::specs::data_forms::Data::fds))]
fn fds(alloc: Global, cursor: &mut Cursor<'_>) -> Result<Items<FdDraft>, Unread>
    ensures { Reads (datas.fds.reads cursor.old) result cursor.new }
{
    fds_from(alloc, cursor, Items::new(alloc))
}

#[tactic(auto, unfolding(cobol_grammar::specs::data_forms::Data::file_section))]
fn file_section(alloc: Global, cursor: &mut Cursor<'_>) -> Result<Items<FdDraft>, Unread>
    ensures { Reads (datas.file_section.reads cursor.old) result cursor.new }
{
    header(cursor, b"FILE", b"SECTION")?;
    fds(alloc, cursor)
}

/// Takes the FILE SECTION, where there is one.
#[tactic(auto, unfolding(cobol_grammar::specs::data_forms::Data::files))]
pub fn files(alloc: Global, cursor: &mut Cursor<'_>) -> Result<Items<FdDraft>, Unread>
    ensures { Reads (datas.files.reads cursor.old) result cursor.new }
{
    if cursor.sees(b"FILE") {
        file_section(alloc, cursor)
    } else {
        Ok(Items::new(alloc))
    }
}

#[tactic(auto, unfolding(cobol_grammar::specs::data_forms::Data::entries))]
fn entries(alloc: Global, cursor: &mut Cursor<'_>) -> Result<Items<EntryDraft>, Unread>
    ensures { Reads (datas.entries.reads cursor.old) result cursor.new }
{
    entries_from(alloc, cursor, Items::new(alloc))
}

#[tactic(auto, unfolding(cobol_grammar::specs::data_forms::Data::working_storage))]
fn working_storage(alloc: Global, cursor: &mut Cursor<'_>) -> Result<Items<EntryDraft>, Unread>
    ensures { Reads (datas.working_storage.reads cursor.old) result cursor.new }
{
    header(cursor, b"WORKING-STORAGE", b"SECTION")?;
    entries(alloc, cursor)
}

/// Takes the WORKING-STORAGE SECTION, where there is one.
#[tactic(auto, unfolding(cobol_grammar::specs::data_forms::Data::storage))]
pub fn storage(alloc: Global, cursor: &mut Cursor<'_>) -> Result<Items<EntryDraft>, Unread>
    ensures { Reads (datas.storage.reads cursor.old) result cursor.new }
{
    if cursor.sees(b"WORKING-STORAGE") {
        working_storage(alloc, cursor)
    } else {
        Ok(Items::new(alloc))
    }
}
