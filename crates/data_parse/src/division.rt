//! All that comes before the PROCEDURE DIVISION.

ghost use Rattle.parser_combinators.specs.Reading.{Reads};
ghost use Rattle.cobol_grammar.specs.data_forms.Data as datas;
ghost use Rattle.cobol_grammar.specs.data_forms.Divisions as all;

use crate::entries::{either, headed, header};
use crate::fd::{files, storage};
use crate::file_control::environment;
use crate::status::StatusReader;
use cob_base::{Items, Word};
use cobol_grammar::data_forms::{DataDraft, Divisions};
use parser_combinators::words::name;
use parser_combinators::{Cursor, Unread};
use std::alloc::Global;

#[tactic(auto, unfolding(cobol_grammar::specs::data_forms::Data::data_division))]
fn data_division(alloc: Global, cursor: &mut Cursor<'_>) -> Result<DataDraft, Unread>
    ensures { Reads (datas.data_division.reads cursor.old) result cursor.new }
{
    header(cursor, b"DATA", b"DIVISION")?;
    let fds = files(alloc, cursor)?;
    match storage(alloc, cursor) {
        Ok(storage) => Ok(DataDraft { fds, storage }),
        Err(stop) => {
            drop(fds);
            Err(stop)
        }
    }
}

/// Takes the DATA DIVISION, where there is one.
#[tactic(auto, unfolding(cobol_grammar::specs::data_forms::Data::data_part))]
pub fn data_part(alloc: Global, cursor: &mut Cursor<'_>) -> Result<DataDraft, Unread>
    ensures { Reads (datas.data_part.reads cursor.old) result cursor.new }
{
    if cursor.sees(b"DATA") {
        data_division(alloc, cursor)
    } else {
        Ok(DataDraft {
            fds: Items::new(alloc),
            storage: Items::new(alloc),
        })
    }
}

#[tactic(auto, unfolding(cobol_grammar::specs::data_forms::Divisions::identification))]
fn identification(cursor: &mut Cursor<'_>) -> Result<Word, Unread>
    ensures { Reads (all.identification.reads cursor.old) result cursor.new }
{
    either(cursor, b"IDENTIFICATION", b"ID")?;
    headed(cursor, b"DIVISION")?;
    headed(cursor, b"PROGRAM-ID")?;
    let (name, _) = name(cursor)?;
    cursor.period()?;
    Ok(name)
}

/// Takes all that comes before the PROCEDURE DIVISION.
#[tactic(auto, unfolding(cobol_grammar::specs::data_forms::Divisions::divisions))]
pub fn divisions<S: StatusReader>(
    alloc: Global,
    cursor: &mut Cursor<'_>,
    reader: &S,
) -> Result<Divisions, Unread>
    ensures { Reads ((all.divisions (S.form reader.now)).reads cursor.old) result cursor.new }
{
    let name = identification(cursor)?;
    let selects = environment(alloc, cursor, reader)?;
    match data_part(alloc, cursor) {
        Ok(data_part) => Ok(Divisions {
            name,
            selects,
            data_part,
        }),
        Err(stop) => {
            drop(selects);
            Err(stop)
        }
    }
}
