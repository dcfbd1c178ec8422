//! READ up to its arms.

ghost use Rattle.parser_combinators.specs.Reading.{Reads};
ghost use Rattle.cobol_grammar.specs.stmt_forms.Arms as forms;
ghost use Rattle.cobol_grammar.specs.stmt_forms.File as files;

use cob_tree::Place;
use cobol_grammar::part_readers::Parts;
use cobol_grammar::stmt_forms::ReadHead;
use parser_combinators::{Cursor, Unread};
use std::alloc::Global;

/// Reads READ and the name of its file, and gives the place among the files.
#[tactic(auto, unfolding(cobol_grammar::specs::stmt_forms::File::read_file))]
fn read_file<P: Parts>(parts: &P, cursor: &mut Cursor<'_>) -> Result<Option<u32>, Unread>
    ensures { Reads ((files.read_file (P.parts parts.now)).reads cursor.old) result cursor.new }
{
    cursor.key(b"READ")?;
    parts.file(cursor)
}

#[tactic(auto, unfolding(cobol_grammar::specs::stmt_forms::File::into_item))]
fn into_item<P: Parts>(
    parts: &P,
    alloc: Global,
    cursor: &mut Cursor<'_>,
    file: Option<u32>,
) -> Result<Option<Place>, Unread>
    ensures { Reads ((files.into_item (P.parts parts.now) file).reads cursor.old)
        result cursor.new }
{
    cursor.key(b"INTO")?;
    let side = parts.reference(alloc, cursor)?;
    cursor.note(parts.value_fault(&side));
    cursor.note(parts.into_fault(file, &side));
    Ok(Some(parts.place_of(side)))
}

/// Reads `[RECORD] [INTO reference]`, of READ.
#[tactic(auto, unfolding(cobol_grammar::specs::stmt_forms::File::into_part))]
fn into_part<P: Parts>(
    parts: &P,
    alloc: Global,
    cursor: &mut Cursor<'_>,
    file: Option<u32>,
) -> Result<Option<Place>, Unread>
    ensures { Reads ((files.into_part (P.parts parts.now) file).reads cursor.old)
        result cursor.new }
{
    cursor.maybe(b"RECORD");
    if cursor.sees(b"INTO") {
        into_item(parts, alloc, cursor, file)
    } else {
        Ok(None)
    }
}

#[tactic(auto, unfolding(cobol_grammar::specs::stmt_forms::Arms::read_open))]
fn read_open<P: Parts>(
    parts: &P,
    alloc: Global,
    cursor: &mut Cursor<'_>,
    file: Option<u32>,
) -> Result<ReadHead, Unread>
    ensures { Reads ((forms.read_open (P.parts parts.now) file).reads cursor.old)
        result cursor.new }
{
    let into = into_part(parts, alloc, cursor, file)?;
    match file {
        None => Ok(ReadHead::Open { file: 0, into }),
        Some(file) => Ok(ReadHead::Open { file, into }),
    }
}

#[tactic(auto, unfolding(cobol_grammar::specs::stmt_forms::Arms::read_sentence))]
fn read_sentence(cursor: &mut Cursor<'_>, file: Option<u32>) -> Result<ReadHead, Unread>
    ensures { Reads ((forms.read_sentence file).reads cursor.old) result cursor.new }
{
    cursor.key(b"SENTENCE")?;
    match file {
        None => Ok(ReadHead::WithSentence(0)),
        Some(file) => Ok(ReadHead::WithSentence(file)),
    }
}

#[tactic(auto, unfolding(cobol_grammar::specs::stmt_forms::Arms::read_next))]
fn read_next<P: Parts>(
    parts: &P,
    alloc: Global,
    cursor: &mut Cursor<'_>,
    file: Option<u32>,
) -> Result<ReadHead, Unread>
    ensures { Reads ((forms.read_next (P.parts parts.now) file).reads cursor.old)
        result cursor.new }
{
    cursor.key(b"NEXT")?;
    if cursor.sees(b"SENTENCE") {
        read_sentence(cursor, file)
    } else {
        read_open(parts, alloc, cursor, file)
    }
}

/// READ up to its arms.
#[tactic(auto, unfolding(cobol_grammar::specs::stmt_forms::Arms::read_head))]
pub fn read_head<P: Parts>(
    parts: &P,
    alloc: Global,
    cursor: &mut Cursor<'_>,
) -> Result<ReadHead, Unread>
    ensures { Reads ((forms.read_head (P.parts parts.now)).reads cursor.old) result cursor.new }
{
    let file = read_file(parts, cursor)?;
    if cursor.sees(b"NEXT") {
        read_next(parts, alloc, cursor, file)
    } else {
        read_open(parts, alloc, cursor, file)
    }
}
