//! The whole program, over the names that it declares.

ghost use Rattle.parser_combinators.specs.Reading.{Reads};
ghost use Rattle.cobol_read.specs.Program as forms;

use crate::operand_reader::PartReader;
use crate::operand_uses::Records;
use crate::status::StatusOf;
use cob_base::Items;
use cob_tree::{Entry, Paragraph};
use cobol_grammar::data_forms::Divisions;
use data_parse::divisions;
use parser_combinators::{Cursor, Note, Unread};
use procedure_parse::division;
use std::alloc::Global;
use symbol_tables::data_names::NameTable;
use symbol_tables::procedure_names::ProcedureTable;

/// What a program declares: names of data and files, entries with the first fault of their rules
/// and of those on files, paragraphs and sections.
#[derive(Drop)]
pub struct Declarations {
    pub names: NameTable,
    pub entries: Items<Entry>,
    pub fault: Option<Note>,
    pub procedures: ProcedureTable,
}

/// A program as it is read.
#[derive(Debug, Drop)]
pub struct ProgramDraft {
    pub divisions: Divisions,
    pub paragraphs: Items<Paragraph>,
}

#[tactic(auto, unfolding(crate::specs::Program::header))]
fn header(cursor: &mut Cursor<'_>) -> Result<(), Unread>
    ensures { Reads (forms.header.reads cursor.old) result cursor.new }
{
    cursor.key(b"PROCEDURE")?;
    cursor.key(b"DIVISION")?;
    cursor.period()?;
    Ok(())
}

fn before_procedures(
    alloc: Global,
    cursor: &mut Cursor<'_>,
    known: &Declarations,
) -> Result<Divisions, Unread>
    ensures { Reads ((forms.before_procedures known.now).reads cursor.old) result cursor.new }
{
    let statuses = StatusOf {
        names: &known.names,
        entries: known.entries.as_slice(),
    };
    divisions(alloc, cursor, &statuses)
}

fn paragraphs(
    alloc: Global,
    cursor: &mut Cursor<'_>,
    known: &Declarations,
) -> Result<Items<Paragraph>, Unread>
    ensures { Reads ((forms.paragraphs known.now).reads cursor.old) result cursor.new }
{
    let records = Records::of(alloc, known.entries.as_slice())?;
    let parts = PartReader {
        alloc,
        names: &known.names,
        records: &records,
        procedures: &known.procedures,
    };
    division(&parts, alloc, cursor)
}

#[tactic(auto, unfolding(crate::specs::Program::procedure_division))]
fn procedure_division(
    alloc: Global,
    cursor: &mut Cursor<'_>,
    known: &Declarations,
) -> Result<Items<Paragraph>, Unread>
    ensures { Reads ((forms.procedure_division known.now).reads cursor.old) result cursor.new }
{
    header(cursor)?;
    paragraphs(alloc, cursor, known)
}

/// Takes all tokens of a program with these declarations.
#[tactic(auto, unfolding(crate::specs::Program::program))]
pub fn program(
    alloc: Global,
    cursor: &mut Cursor<'_>,
    known: &Declarations,
) -> Result<ProgramDraft, Unread>
    ensures { Reads ((forms.program known.now).reads cursor.old) result cursor.new }
{
    let divisions = before_procedures(alloc, cursor, known)?;
    match procedure_division(alloc, cursor, known) {
        Ok(paragraphs) => Ok(ProgramDraft {
            divisions,
            paragraphs,
        }),
        Err(unread) => {
            drop(divisions);
            Err(unread)
        }
    }
}
