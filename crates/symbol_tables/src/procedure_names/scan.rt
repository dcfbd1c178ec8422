//! Goes over the tokens of a division from the left.

ghost use Rattle.std.specs.Prelude.{◌≡◌, ◌+◌, ◌-◌, ◌≤◌, ◌<◌, ◌^◌, true, codes, drop, length, IfOk};
ghost use Rattle.cob_base.specs.Answers.{Makes};
ghost use Rattle.parser_combinators.specs.Form.{next, begins_by};
ghost use Rattle.parser_combinators.specs.Part as part;
ghost use Rattle.symbol_tables.specs.procedure_names.Procedures as procedures;

use crate::procedure_names::headers::header_name;
use crate::procedure_names::table::{Header, ProcedureTable};
use cob_base::{Items, NoMemory, Word};
use cob_words::WordTable;
use cobol_lex::{Token, TokenKind};
use std::alloc::Global;

/// What has no paragraph yet.
#[derive(Clone, Copy, Debug, PartialEq, Eq)]
pub enum Awaited {
    Division,
    Section,
    Nothing,
}

/// What is found in the tokens so far.
#[derive(Drop)]
pub struct Scan {
    pub found: ProcedureTable,
    pub awaited: Awaited,
}

fn is_word(kind: &TokenKind, word: &[u8]) -> bool
    ensures { result ≡ part.is_key word.now kind.now }
{
    match kind {
        TokenKind::Word(found) => word == found.as_slice(),
        _ => false,
    }
}

fn is_period(kind: &TokenKind) -> bool
    ensures { result ≡ part.is_period kind.now }
{
    match kind {
        TokenKind::Period => true,
        _ => false,
    }
}

fn sees_section(tokens: &[Token]) -> bool
    ensures { result ≡ begins_by (part.is_key (codes "SECTION")) (next tokens.now) }
{
    match tokens {
        [token, ..] => is_word(&token.kind, b"SECTION"),
        [] => false,
    }
}

fn whole_count(scan: &Scan) -> u32
    requires { procedures.whole_count scan.now < 2 ^ 32 }
    ensures { result ≡ procedures.whole_count scan.now }
{
    match scan.awaited {
        Awaited::Division => scan.found.count,
        Awaited::Section => scan.found.count + 1,
        Awaited::Nothing => scan.found.count,
    }
}

fn with_section(
    mut table: ProcedureTable,
    name: Word,
    index: usize,
    first: u32,
) -> Result<ProcedureTable, NoMemory>
    requires names { length table.names < 2 ^ 32 }
    requires starts { length table.starts < 2 ^ 32 }
    ensures { Makes (procedures.with_section name index first table) result }
{
    let header = Header {
        first,
        section: Some(table.starts.len() as u32),
        index,
    };
    table.starts.push(first)?;
    table.count = first;
    table.with_name(name, header)
}

fn with_paragraph(
    mut table: ProcedureTable,
    name: Word,
    index: usize,
) -> Result<ProcedureTable, NoMemory>
    requires names { length table.names < 2 ^ 32 }
    requires count { table.count < 2 ^ 32 - 1 }
    ensures { Makes (procedures.with_paragraph name index table) result }
{
    let header = Header {
        first: table.count,
        section: None,
        index,
    };
    table.count += 1;
    table.with_name(name, header)
}

fn with_sentences(awaited: Awaited, mut table: ProcedureTable) -> ProcedureTable
    requires { table.count < 2 ^ 32 - 1 }
    ensures { result ≡ procedures.with_sentences awaited table }
{
    match awaited {
        Awaited::Division | Awaited::Section => {
            table.count += 1;
            table
        }
        Awaited::Nothing => table,
    }
}

fn section_headed(scan: Scan, name: Word, index: usize) -> Result<Scan, NoMemory>
    requires { procedures.HasRoom scan }
    ensures { Makes (procedures.section_headed name index scan) result }
{
    let first = whole_count(&scan);
    let found = with_section(scan.found, name, index, first)?;
    Ok(Scan {
        found,
        awaited: Awaited::Section,
    })
}

fn paragraph_headed(scan: Scan, name: Word, index: usize) -> Result<Scan, NoMemory>
    requires { procedures.HasRoom scan }
    ensures { Makes (procedures.paragraph_headed name index scan) result }
{
    let found = with_paragraph(scan.found, name, index)?;
    Ok(Scan {
        found,
        awaited: Awaited::Nothing,
    })
}

fn unheaded(scan: Scan, is_end: bool) -> Scan
    requires { procedures.HasRoom scan }
    ensures { result ≡ procedures.unheaded is_end scan }
{
    if is_end {
        return scan;
    }
    Scan {
        found: with_sentences(scan.awaited, scan.found),
        awaited: Awaited::Nothing,
    }
}

fn headed(scan: Scan, is_section: bool, name: Word, index: usize) -> Result<Scan, NoMemory>
    requires { procedures.HasRoom scan }
    ensures { Makes (procedures.headed is_section name index scan) result }
{
    if is_section {
        section_headed(scan, name, index)
    } else {
        paragraph_headed(scan, name, index)
    }
}

/// The scan after a token that comes where a header may be.
fn begun(scan: Scan, kind: &TokenKind, behind: &[Token], index: usize) -> Result<Scan, NoMemory>
    requires { procedures.HasRoom scan }
    ensures { Makes (procedures.begun kind.now behind.now index scan) result }
{
    match header_name(kind) {
        Some(name) => headed(scan, sees_section(behind), name, index),
        None => Ok(unheaded(scan, is_word(kind, b"END"))),
    }
}

fn start(alloc: Global) -> Scan
    ensures { result ≡ procedures.start }
{
    Scan {
        found: ProcedureTable {
            names: WordTable::new(alloc),
            headers: Items::new(alloc),
            starts: Items::new(alloc),
            count: 0,
        },
        awaited: Awaited::Division,
    }
}

#[tactic(auto, unfolding(crate::specs::procedure_names::Procedures::scanned))]
fn scanned(alloc: Global, tokens: &[Token], from: usize) -> Result<Scan, NoMemory>
    requires few { length tokens.now < 2 ^ 32 }
    requires inside { from + length tokens.now < 2 ^ 63 }
    ensures value { Makes (procedures.scanned tokens.now true from procedures.start) result }
    ensures within { IfOk result (procedures.IsWithin (length tokens.now)) }
{
    let mut scan = start(alloc);
    let mut rest = tokens;
    let mut may_head = true;
    let mut index = from;
    'tokens: while let [token, behind @ ..] = rest {
        if may_head {
            scan = begun(scan, &token.kind, behind, index)?;
        }
        may_head = is_period(&token.kind);
        rest = behind;
        index += 1;
    }
    Ok(scan)
}

fn at_least_one(count: u32) -> u32
    ensures { result ≡ procedures.at_least_one count }
{
    if count == 0 { 1 } else { count }
}

fn closed(scan: Scan) -> ProcedureTable
    requires { procedures.whole_count scan < 2 ^ 32 }
    ensures { result ≡ procedures.closed scan }
{
    let count = whole_count(&scan);
    let mut found = scan.found;
    found.count = at_least_one(count);
    found
}

/// The paragraphs and sections of the tokens after the first `from`, which are those after the
/// header of the division. The statements aren't read.
pub fn procedures_of(
    alloc: Global,
    tokens: &[Token],
    from: usize,
) -> Result<ProcedureTable, NoMemory>
    requires few { length tokens.now < 2 ^ 32 }
    requires inside { from ≤ length tokens.now }
    ensures { Makes (procedures.procedures_of (drop from tokens.now) from) result }
{
    let scan = scanned(alloc, &tokens[from..], from)?;
    Ok(closed(scan))
}
