//! Conditions and expressions, from their tokens to the tokens that are printed of them.

use crate::texts::tokens_of;
use cob_base::NoMemory;
use cob_tree::{Cond, Expr, NameFault, ParseError, ParseFault, Program};
use cobol_grammar::part_readers::{drop_condition, drop_expr};
use cobol_lex::{LexError, Token, TokenKind};
use cobol_read::read;
use cond_parse::from_tokens::{CondPart, ExprPart, parse_cond, parse_expr};
use std::alloc::Global;
use std::test::Fail;
use symbol_tables::data_names::NameTable;
use unparser::Tokens;

const DATA: &[u8] = b"       IDENTIFICATION DIVISION.
       PROGRAM-ID. T.
       DATA DIVISION.
       WORKING-STORAGE SECTION.
       01 PAY PIC 9(4).
           88 RICH VALUE 1000 THRU 9999.
       01 TAX PIC 9(4).
       01 OLD.
           05 AGE PIC 99.
       01 NEW.
           05 AGE PIC 99.
       PROCEDURE DIVISION.
       A.
           STOP RUN.
";

// The text, how many tokens are its condition, and what is printed of it.
const CONDS: [(&str, usize, &str); 10] = [
    ("PAY = 1", 3, "PAY = 1"),
    ("PAY IS NOT EQUAL TO TAX END-IF", 6, "PAY NOT = TAX"),
    // what follows a relation may leave out its left side, and its sign too
    ("PAY = 1 OR 2", 5, "PAY = 1 OR PAY = 2"),
    ("PAY = 1 OR > TAX", 6, "PAY = 1 OR PAY > TAX"),
    (
        "PAY NOT = 1 AND 2 AND < 9",
        9,
        "(PAY NOT = 1 AND PAY NOT = 2) AND PAY < 9",
    ),
    (
        "PAY = 1 OR 2 AND TAX OR > 5",
        10,
        "(PAY = 1 OR (PAY = 2 AND PAY = TAX)) OR PAY > 5",
    ),
    // a NOT before a relation isn't carried on, and the name of a level 88 changes nothing
    ("NOT PAY = 1 OR 2", 6, "NOT (PAY = 1) OR PAY = 2"),
    ("PAY = 1 OR RICH OR 2", 7, "(PAY = 1 OR RICH) OR PAY = 2"),
    // a NOT that isn't the condition's own comes after it
    ("PAY > TAX NOT AT END", 3, "PAY > TAX"),
    ("AGE OF NEW IS NOT NUMERIC", 6, "AGE OF NEW NOT NUMERIC"),
];

const EXPRS: [(&str, usize, &str); 3] = [
    ("PAY + 2 * (TAX - 1)", 9, "PAY + (2 * (TAX - 1))"),
    ("PAY - 1 - TAX = 3", 5, "(PAY - 1) - TAX"),
    ("- PAY / 2 DISPLAY", 4, "(- PAY) / 2"),
];

/// How many tokens are read of a text, 0 where it isn't read, and its fault.
type Stop = (usize, ParseFault);

const NO_CONDS: [(&str, Stop); 6] = [
    // faults of syntax, at the first token that can't come there, or at the end
    ("PAY =\nOR 1", (0, ParseFault::Syntax(2))),
    ("PAY = 1 AND\n(TAX = 2", (0, ParseFault::Syntax(2))),
    ("PAY = 1 OR NOT\n2\nDISPLAY", (0, ParseFault::Syntax(3))),
    ("(PAY = 1)\nOR 2 DISPLAY", (0, ParseFault::Syntax(2))),
    // faults of names
    (
        "PAY = 1 OR\nNOBODY = 2 OR\nAGE",
        (9, ParseFault::Name(NameFault::Unknown(2))),
    ),
    (
        "PAY = AGE\nOR NOBODY",
        (5, ParseFault::Name(NameFault::Ambiguous(1))),
    ),
];

const NO_EXPRS: [(&str, Stop); 3] = [
    ("PAY +\n)", (0, ParseFault::Syntax(2))),
    ("(PAY +\n1", (0, ParseFault::Syntax(2))),
    (
        "PAY *\nNOBODY",
        (3, ParseFault::Name(NameFault::Unknown(2))),
    ),
];

// Whether these tokens are the wanted ones.
fn are_tokens(found: &[TokenKind], wanted: &[Token]) -> bool {
    for (kind, token) in found.iter().zip(wanted.iter()) {
        if *kind != token.kind {
            return false;
        }
    }
    found.len() == wanted.len()
}

fn prints_cond(
    alloc: Global,
    program: &Program,
    cond: &Cond,
    wanted: &[Token],
) -> Result<bool, NoMemory> {
    let mut list = Tokens::new(alloc);
    list.cond(program, cond, false)?;
    let printed = list.into_items();
    Ok(are_tokens(printed.as_slice(), wanted))
}

fn prints_expr(
    alloc: Global,
    program: &Program,
    expr: &Expr,
    wanted: &[Token],
) -> Result<bool, NoMemory> {
    let mut list = Tokens::new(alloc);
    list.expr(program, expr, false)?;
    let printed = list.into_items();
    Ok(are_tokens(printed.as_slice(), wanted))
}

// Whether so many of these tokens are a condition, of which that is printed.
fn is_cond(
    alloc: Global,
    program: &Program,
    names: &NameTable,
    tokens: &[Token],
    count: usize,
    wanted: &[Token],
) -> Result<bool, NoMemory> {
    match parse_cond(alloc, tokens, 0, names) {
        Err(_) => Ok(false),
        Ok(part) => {
            let CondPart { cond, next, fault } = part;
            let printed = prints_cond(alloc, program, &cond, wanted);
            drop_condition(cond);
            Ok(printed? && next == count && fault.is_none())
        }
    }
}

fn is_expr(
    alloc: Global,
    program: &Program,
    names: &NameTable,
    tokens: &[Token],
    count: usize,
    wanted: &[Token],
) -> Result<bool, NoMemory> {
    match parse_expr(alloc, tokens, 0, names) {
        Err(_) => Ok(false),
        Ok(part) => {
            let ExprPart { expr, next, fault } = part;
            let printed = prints_expr(alloc, program, &expr, wanted);
            drop_expr(expr);
            Ok(printed? && next == count && fault.is_none())
        }
    }
}

fn stop_of(error: ParseError) -> Option<Stop> {
    match error {
        ParseError::Fault(fault) => Some((0, fault)),
        _ => None,
    }
}

fn name_of(next: usize, fault: Option<NameFault>) -> Option<Stop> {
    match fault {
        Some(fault) => Some((next, ParseFault::Name(fault))),
        None => None,
    }
}

fn cond_stop(alloc: Global, names: &NameTable, tokens: &[Token]) -> Option<Stop> {
    match parse_cond(alloc, tokens, 0, names) {
        Err(error) => stop_of(error),
        Ok(part) => {
            let CondPart { cond, next, fault } = part;
            drop_condition(cond);
            name_of(next, fault)
        }
    }
}

fn expr_stop(alloc: Global, names: &NameTable, tokens: &[Token]) -> Option<Stop> {
    match parse_expr(alloc, tokens, 0, names) {
        Err(error) => stop_of(error),
        Ok(part) => {
            let ExprPart { expr, next, fault } = part;
            drop_expr(expr);
            name_of(next, fault)
        }
    }
}

type Wrong = Result<Option<&'static str>, LexError>;

// The first text that isn't read as its row says.
fn wrong_cond(alloc: Global, program: &Program, names: &NameTable) -> Wrong {
    for (text, count, wanted) in CONDS {
        let tokens = tokens_of(alloc, text)?;
        let wanted = tokens_of(alloc, wanted)?;
        let (tokens, wanted) = (tokens.as_slice(), wanted.as_slice());
        if !is_cond(alloc, program, names, tokens, count, wanted)? {
            return Ok(Some(text));
        }
    }
    Ok(None)
}

fn wrong_expr(alloc: Global, program: &Program, names: &NameTable) -> Wrong {
    for (text, count, wanted) in EXPRS {
        let tokens = tokens_of(alloc, text)?;
        let wanted = tokens_of(alloc, wanted)?;
        let (tokens, wanted) = (tokens.as_slice(), wanted.as_slice());
        if !is_expr(alloc, program, names, tokens, count, wanted)? {
            return Ok(Some(text));
        }
    }
    Ok(None)
}

fn wrong_cond_stop(alloc: Global, names: &NameTable) -> Wrong {
    for (text, stop) in NO_CONDS {
        let tokens = tokens_of(alloc, text)?;
        if cond_stop(alloc, names, tokens.as_slice()) != Some(stop) {
            return Ok(Some(text));
        }
    }
    Ok(None)
}

fn wrong_expr_stop(alloc: Global, names: &NameTable) -> Wrong {
    for (text, stop) in NO_EXPRS {
        let tokens = tokens_of(alloc, text)?;
        if expr_stop(alloc, names, tokens.as_slice()) != Some(stop) {
            return Ok(Some(text));
        }
    }
    Ok(None)
}

fn wrong_of(alloc: Global, program: &Program, names: &NameTable) -> Wrong {
    if let Some(text) = wrong_cond(alloc, program, names)? {
        return Ok(Some(text));
    }
    if let Some(text) = wrong_expr(alloc, program, names)? {
        return Ok(Some(text));
    }
    if let Some(text) = wrong_cond_stop(alloc, names)? {
        return Ok(Some(text));
    }
    wrong_expr_stop(alloc, names)
}

// The same, by the names of a program.
fn wrong_by(alloc: Global, program: &Program) -> Wrong {
    let files = program.files.as_slice();
    let entries = program.entries.as_slice();
    if files.len() >= 1 << 31 || entries.len() >= 1 << 31 {
        return Err(LexError::NoMemory);
    }
    match NameTable::new(alloc, files, entries) {
        Err(NoMemory) => Err(LexError::NoMemory),
        Ok(names) => {
            let wrong = wrong_of(alloc, program, &names);
            drop(names);
            wrong
        }
    }
}

#[test]
fn conditions_and_expressions_are_parsed(rt: HostRuntime) -> Result<(), Fail> {
    match read(rt.alloc(), DATA) {
        Err(refusal) => {
            drop(refusal);
            Err(Fail::from("the data"))
        }
        Ok(program) => {
            let wrong = wrong_by(rt.alloc(), &program);
            drop(program);
            assert_eq!(rt; wrong?, None);
            Ok(())
        }
    }
}
