//! A small grammar, for which the laws of every way to make a form are proved, and its parser.

ghost use Rattle.std.specs.Prelude.{◌≡◌, List, None, Option, IfOk, IfErr, position};
ghost use Rattle.std.specs.Str.{bytes_eq};
ghost use Rattle.parser_combinators.specs.Form as form;
ghost use Rattle.parser_combinators.specs.Reading.{Reads, AllSpell};
ghost use Rattle.parser_combinators.specs.declared.note.Note.{Note};
ghost use Rattle.parser_combinators.specs.declared.example.Step.{Step};
ghost use Rattle.parser_combinators.specs.Example as example;

use crate::cursor::Cursor;
use crate::note::{NameKind, Note};
use crate::why::{Unread, Why};
use cob_base::{Items, Word};
use cobol_lex::{Token, TokenKind};
use std::alloc::Global;

/// A part of an order. An order that repeats others is listed as its beginning, the others and its
/// end.
#[derive(Debug, Drop, PartialEq, Eq)]
pub enum Step {
    Show(Items<u8>),
    /// The index of a name among those that are known.
    Go(usize),
    Repeat,
    End,
}

/// Why tokens aren't a text of the small grammar.
#[derive(Clone, Copy, Debug, PartialEq, Eq)]
pub enum Fault {
    /// With the line of the token that decides it, or of the last token where more are needed, or
    /// 1 where there is none.
    Stop(Why, u32),
    /// The first, of a text with no other fault.
    Name(Note),
    NoMemory,
}

const MAX_PARENS: u32 = 2;

const MAX_NESTING: u32 = 2;

fn digit(cursor: &mut Cursor<'_>) -> Result<u8, Unread>
    ensures { Reads (example.digit.reads cursor.old) result cursor.new }
{
    let digit = match cursor.peek() {
        Some(TokenKind::Digits(text)) => match text.as_slice() {
            [digit] => digit.saturating_sub(48),
            _ => return Err(Unread::Stop(Why::Syntax)),
        },
        _ => return Err(Unread::Stop(Why::Syntax)),
    };
    cursor.skip();
    Ok(digit)
}

#[cycle(sum)]
fn term(cursor: &mut Cursor<'_>, levels: u32) -> Result<u8, Unread>
    ensures { Reads ((example.term levels).reads cursor.old) result cursor.new }
{
    if cursor.sees_mark(b'(') {
        inner(cursor, levels)
    } else {
        digit(cursor)
    }
}

#[cycle(sum)]
fn inner(cursor: &mut Cursor<'_>, levels: u32) -> Result<u8, Unread>
    ensures { Reads ((example.inner levels).reads cursor.old) result cursor.new }
{
    if levels == 0 {
        let begins = cursor.sees_mark(b'(');
        return Err(cursor.too_deep(Why::Parens, begins));
    }
    in_parens(cursor, levels - 1)
}

#[cycle(sum)]
fn in_parens(cursor: &mut Cursor<'_>, levels: u32) -> Result<u8, Unread>
    ensures { Reads ((example.in_parens levels).reads cursor.old) result cursor.new }
{
    cursor.mark(b'(')?;
    let value = sum(cursor, levels)?;
    cursor.mark(b')')?;
    Ok(value)
}

#[cycle(sum)]
fn less(left: u8, cursor: &mut Cursor<'_>, levels: u32) -> Result<u8, Unread>
    ensures { Reads ((example.less (example.term levels) left).reads cursor.old) result cursor.new }
{
    cursor.mark(b'-')?;
    let right = term(cursor, levels)?;
    Ok(left.saturating_sub(right))
}

#[cycle(sum)]
fn sum(cursor: &mut Cursor<'_>, levels: u32) -> Result<u8, Unread>
    ensures { Reads ((example.sum levels).reads cursor.old) result cursor.new }
{
    let mut value = term(cursor, levels)?;
    'terms: while cursor.sees_mark(b'-') {
        value = less(value, cursor, levels)?;
    }
    Ok(value)
}

fn at_sum(cursor: &Cursor<'_>) -> bool
    ensures { result ≡ form.is_next example.begins_sum cursor.now }
{
    match cursor.peek() {
        Some(TokenKind::Digits(_)) => true,
        _ => cursor.sees_mark(b'('),
    }
}

fn sum_list(alloc: Global, cursor: &mut Cursor<'_>) -> Result<Items<u8>, Unread>
    ensures { Reads (example.sum_list.reads cursor.old) result cursor.new }
{
    let mut found = Items::new(alloc);
    found.push(sum(cursor, MAX_PARENS)?)?;
    'sums: while at_sum(cursor) {
        found.push(sum(cursor, MAX_PARENS)?)?;
    }
    Ok(found)
}

#[tactic(auto, unfolding(crate::specs::Example::show))]
fn show(
    alloc: Global,
    cursor: &mut Cursor<'_>,
    mut found: Items<Step>,
) -> Result<Items<Step>, Unread>
    ensures { Reads ((example.show found).reads cursor.old) result cursor.new }
{
    cursor.key(b"SHOW")?;
    let values = sum_list(alloc, cursor)?;
    found.push(Step::Show(values))?;
    Ok(found)
}

fn index_of(known: &[Word], word: &Word) -> Option<usize>
    ensures { result ≡ position (bytes_eq word.now) known.now }
{
    known.iter().position(|name| word == name)
}

#[tactic(auto, unfolding(crate::specs::Example::name))]
fn name(cursor: &mut Cursor<'_>, known: &[Word]) -> Result<usize, Unread>
    ensures { Reads ((example.name known.now).reads cursor.old) result cursor.new }
{
    let (word, position) = cursor.word()?;
    match index_of(known, &word) {
        None => {
            cursor.note(Some(Note {
                kind: NameKind::Unknown,
                position,
            }));
            Ok(0)
        }
        Some(index) => Ok(index),
    }
}

#[tactic(auto, unfolding(crate::specs::Example::go))]
fn go(
    cursor: &mut Cursor<'_>,
    known: &[Word],
    mut found: Items<Step>,
) -> Result<Items<Step>, Unread>
    ensures { Reads ((example.go known.now found).reads cursor.old) result cursor.new }
{
    cursor.key(b"GO")?;
    cursor.maybe(b"TO");
    let index = name(cursor, known)?;
    found.push(Step::Go(index))?;
    Ok(found)
}

fn at_order(cursor: &Cursor<'_>) -> bool
    ensures { result ≡ form.is_next example.begins_order cursor.now }
{
    cursor.sees(b"SHOW") || cursor.sees(b"GO") || cursor.sees(b"REPEAT")
}

#[cycle(order)]
fn order(
    alloc: Global,
    cursor: &mut Cursor<'_>,
    known: &[Word],
    levels: u32,
    found: Items<Step>,
) -> Result<Items<Step>, Unread>
    ensures { Reads ((example.order known.now levels found).reads cursor.old) result cursor.new }
{
    if cursor.sees(b"SHOW") {
        show(alloc, cursor, found)
    } else if cursor.sees(b"REPEAT") {
        repeat(alloc, cursor, known, levels, found)
    } else {
        go(cursor, known, found)
    }
}

#[cycle(order)]
fn orders(
    alloc: Global,
    cursor: &mut Cursor<'_>,
    known: &[Word],
    levels: u32,
    found: Items<Step>,
) -> Result<Items<Step>, Unread>
    ensures { Reads ((example.orders known.now levels found).reads cursor.old) result cursor.new }
{
    let mut found = order(alloc, cursor, known, levels, found)?;
    'orders: while at_order(cursor) {
        found = order(alloc, cursor, known, levels, found)?;
    }
    Ok(found)
}

#[cycle(order)]
fn repeat(
    alloc: Global,
    cursor: &mut Cursor<'_>,
    known: &[Word],
    levels: u32,
    found: Items<Step>,
) -> Result<Items<Step>, Unread>
    ensures { Reads ((example.repeat known.now levels found).reads cursor.old) result cursor.new }
{
    if levels == 0 {
        let begins = cursor.sees(b"REPEAT");
        return Err(cursor.too_deep(Why::Nesting, begins));
    }
    repeated(alloc, cursor, known, levels - 1, found)
}

#[cycle(order)]
fn repeated(
    alloc: Global,
    cursor: &mut Cursor<'_>,
    known: &[Word],
    levels: u32,
    mut found: Items<Step>,
) -> Result<Items<Step>, Unread>
    ensures { Reads ((example.repeated known.now levels found).reads cursor.old) result cursor.new }
{
    cursor.key(b"REPEAT")?;
    found.push(Step::Repeat)?;
    let mut body = orders(alloc, cursor, known, levels, found)?;
    cursor.maybe(b"END-REPEAT");
    body.push(Step::End)?;
    Ok(body)
}

#[tactic(auto, unfolding(crate::specs::Example::text))]
fn text(alloc: Global, cursor: &mut Cursor<'_>, known: &[Word]) -> Result<Items<Step>, Unread>
    ensures { Reads ((example.text known.now).reads cursor.old) result cursor.new }
{
    let found = orders(alloc, cursor, known, MAX_NESTING, Items::new(alloc))?;
    cursor.period()?;
    cursor.ended()?;
    Ok(found)
}

/// The steps that the tokens spell.
pub fn read(alloc: Global, known: &[Word], tokens: &[Token]) -> Result<Items<Step>, Fault>
    ensures found { IfOk result (λ steps. AllSpell (example.text known.now) tokens.now steps None) }
    ensures only { (steps : List Step) (fault : Option Note) →
        AllSpell (example.text known.now) tokens.now steps fault →
        example.Gives result steps fault }
    ensures fault { IfErr result (λ fault. example.IsFault known.now tokens.now fault) }
{
    let mut cursor = Cursor::new(tokens);
    match text(alloc, &mut cursor, known) {
        Ok(found) => match cursor.fault() {
            None => Ok(found),
            Some(note) => Err(Fault::Name(note)),
        },
        Err(Unread::Stop(why)) => Err(Fault::Stop(why, cursor.fault_line(tokens))),
        Err(Unread::NoMemory) => Err(Fault::NoMemory),
    }
}
