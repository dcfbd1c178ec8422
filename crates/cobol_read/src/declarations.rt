//! What the tokens of a program declare.

ghost use Rattle.std.specs.Prelude.{◌≡◌, ◌+◌, ◌≤◌, ◌<◌, ◌^◌, [], drop, length, min};
ghost use Rattle.cob_base.specs.Answers.{Makes};
ghost use Rattle.symbol_tables.specs.data_names.Names.{names_of};
ghost use Rattle.declaration_checks.specs.Declaring as declaring;
ghost use Rattle.symbol_tables.specs.procedure_names.Procedures.{procedures_of};
ghost use Rattle.cobol_read.specs.Program as forms;

use crate::program::Declarations;
use crate::status::StatusOf;
use cob_base::{Items, NoMemory};
use cobol_grammar::data_forms::Divisions;
use cobol_lex::Token;
use data_parse::divisions;
use declaration_checks::{Declared, declared_of};
use parser_combinators::{Cursor, Unread};
use std::alloc::Global;
use symbol_tables::data_names::NameTable;
use symbol_tables::procedure_names::{ProcedureTable, procedures_of};

/// The files and entries that are declared, and how many tokens come before the statements.
#[derive(Drop)]
pub struct Preamble {
    pub declared: Declared,
    pub from: usize,
}

fn nothing(alloc: Global) -> Declared
    ensures { result ≡ forms.nothing }
{
    Declared {
        files: Items::new(alloc),
        entries: Items::new(alloc),
        fault: None,
    }
}

// The place after three tokens more, or after all.
fn behind_header(index: usize, tokens: &[Token]) -> usize
    ensures { result ≡ min (index + 3) (length tokens.now) }
{
    let count = tokens.len();
    if 3 < count && index < count - 3 {
        index + 3
    } else {
        count
    }
}

fn declared_by(alloc: Global, found: Divisions, from: usize) -> Result<Preamble, NoMemory>
    ensures { Makes (record { declared = declaring.declared_of found; from = from }) result }
{
    match declared_of(alloc, &found) {
        Ok(declared) => {
            drop(found);
            Ok(Preamble { declared, from })
        }
        Err(fault) => {
            drop(found);
            Err(fault)
        }
    }
}

fn preamble_by(alloc: Global, tokens: &[Token], no_names: &NameTable) -> Result<Preamble, NoMemory>
    requires { no_names.now ≡ names_of [] [] }
    ensures { Makes (forms.preamble_of tokens.now (forms.nameless tokens.now)) result }
{
    let statuses = StatusOf {
        names: no_names,
        entries: &[],
    };
    let mut cursor = Cursor::new(tokens);
    match divisions(alloc, &mut cursor, &statuses) {
        Ok(found) => declared_by(alloc, found, behind_header(cursor.index(), tokens)),
        Err(Unread::Stop(_)) => Ok(Preamble {
            declared: nothing(alloc),
            from: tokens.len(),
        }),
        Err(Unread::NoMemory) => Err(NoMemory),
    }
}

fn preamble_of(alloc: Global, tokens: &[Token]) -> Result<Preamble, NoMemory>
    ensures { Makes (forms.preamble_of tokens.now (forms.nameless tokens.now)) result }
{
    let no_names = NameTable::new(alloc, &[], &[])?;
    let preamble = preamble_by(alloc, tokens, &no_names);
    drop(no_names);
    preamble
}

// The names of files and entries, whose numbers are below 2^31.
fn names_in(alloc: Global, declared: &Declared) -> Result<NameTable, NoMemory>
    ensures { Makes (names_of declared.now.files declared.now.entries) result }
{
    let files = declared.files.as_slice();
    let entries = declared.entries.as_slice();
    if files.len() >= 2_147_483_648 {
        return Err(NoMemory);
    }
    if entries.len() >= 2_147_483_648 {
        return Err(NoMemory);
    }
    NameTable::new(alloc, files, entries)
}

fn with_procedures(names: NameTable, procedures: ProcedureTable, declared: Declared) -> Declarations
    ensures { result ≡ record {
      names = names;
      entries = declared.entries;
      fault = declared.fault;
      procedures = procedures;
    } }
{
    let Declared {
        files,
        entries,
        fault,
    } = declared;
    drop(files);
    Declarations {
        names,
        entries,
        fault,
        procedures,
    }
}

fn with_names(
    alloc: Global,
    tokens: &[Token],
    names: NameTable,
    declared: Declared,
    from: usize,
) -> Result<Declarations, NoMemory>
    requires few { length tokens.now < 2 ^ 32 }
    requires inside { from ≤ length tokens.now }
    ensures { Makes (record {
      names = names;
      entries = declared.entries;
      fault = declared.fault;
      procedures = procedures_of (drop from tokens.now) from;
    }) result }
{
    match procedures_of(alloc, tokens, from) {
        Ok(procedures) => Ok(with_procedures(names, procedures, declared)),
        Err(fault) => {
            drop(names);
            drop(declared);
            Err(fault)
        }
    }
}

fn declarations_from(
    alloc: Global,
    tokens: &[Token],
    declared: Declared,
    from: usize,
) -> Result<Declarations, NoMemory>
    requires few { length tokens.now < 2 ^ 32 }
    requires inside { from ≤ length tokens.now }
    ensures { Makes (forms.declarations_from tokens.now declared from) result }
{
    match names_in(alloc, &declared) {
        Ok(names) => with_names(alloc, tokens, names, declared, from),
        Err(fault) => {
            drop(declared);
            Err(fault)
        }
    }
}

/// What these tokens declare.
pub fn declarations_of(alloc: Global, tokens: &[Token]) -> Result<Declarations, NoMemory>
    requires { length tokens.now < 2 ^ 32 }
    ensures { Makes (forms.declarations_of tokens.now) result }
{
    let Preamble { declared, from } = preamble_of(alloc, tokens)?;
    declarations_from(alloc, tokens, declared, from)
}
