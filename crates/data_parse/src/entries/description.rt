//! Data description entries.

ghost use Rattle.parser_combinators.specs.Form as form;
ghost use Rattle.parser_combinators.specs.Reading.{Reads};
ghost use Rattle.cobol_grammar.specs.data_forms.Clause as clauses;
ghost use Rattle.cobol_grammar.specs.data_forms.Entry as entries;

use crate::entries::clause::{clause, sees_clause};
use crate::entries::lists::pushed;
use cob_base::{Items, Word};
use cobol_grammar::data_forms::{Clause, EntryDraft};
use parser_combinators::words::{name, sees_name};
use parser_combinators::{Cursor, Unread};
use std::alloc::Global;

#[tactic(auto, unfolding(cobol_grammar::specs::data_forms::Entry::entry_name))]
fn entry_name(cursor: &mut Cursor<'_>) -> Result<Option<Word>, Unread>
    ensures { Reads (entries.entry_name.reads cursor.old) result cursor.new }
{
    if cursor.sees(b"FILLER") {
        cursor.key(b"FILLER")?;
        Ok(None)
    } else if sees_name(cursor) {
        let (word, _) = name(cursor)?;
        Ok(Some(word))
    } else {
        Ok(None)
    }
}

/// Reads one more clause.
fn clause_behind(
    alloc: Global,
    cursor: &mut Cursor<'_>,
    found: Items<Clause>,
) -> Result<Items<Clause>, Unread>
    ensures { Reads ((form.added clauses.clause found).reads cursor.old) result cursor.new }
{
    match clause(alloc, cursor) {
        Ok(next) => Ok(pushed(found, next)?),
        Err(stop) => {
            drop(found);
            Err(stop)
        }
    }
}

fn clauses_from(
    alloc: Global,
    cursor: &mut Cursor<'_>,
    mut found: Items<Clause>,
) -> Result<Items<Clause>, Unread>
    ensures { Reads ((form.loop clauses.begins_clause (form.added clauses.clause) found).reads
        cursor.old) result cursor.new }
{
    'items: while sees_clause(cursor) {
        found = clause_behind(alloc, cursor, found)?;
    }
    Ok(found)
}

#[tactic(auto, unfolding(cobol_grammar::specs::data_forms::Entry::entry_clauses))]
fn entry_clauses(alloc: Global, cursor: &mut Cursor<'_>) -> Result<Items<Clause>, Unread>
    ensures { Reads (entries.entry_clauses.reads cursor.old) result cursor.new }
{
    clauses_from(alloc, cursor, Items::new(alloc))
}

/// Takes a data description entry.
#[tactic(auto, unfolding(cobol_grammar::specs::data_forms::Entry::entry))]
pub fn entry(alloc: Global, cursor: &mut Cursor<'_>) -> Result<EntryDraft, Unread>
    ensures { Reads (entries.entry.reads cursor.old) result cursor.new }
{
    let (level, at) = cursor.digits(alloc)?;
    let name = entry_name(cursor)?;
    let clauses = entry_clauses(alloc, cursor)?;
    match cursor.period() {
        Ok(_) => Ok(EntryDraft {
            at,
            level,
            name,
            clauses,
        }),
        Err(stop) => {
            drop(clauses);
            Err(stop)
        }
    }
}
