//! What a draft alone says about its entry.

ghost use Rattle.std.specs.Prelude.{◌≡◌, ◌<◌, map, Some};
ghost use Rattle.cob_base.specs.Answers.{Makes};
ghost use Rattle.declaration_checks.specs.Base as bases;

use crate::clause::{ClauseKind, clause_of, has_clause};
use cob_base::{Copied, Items, NoMemory};
use cob_tree::{Entry, Operand, Picture, Sign, Span, Usage};
use cobol_grammar::data_forms::{Clause, EntryDraft, SpanDraft, ThruDraft};
use picture_data::read_picture;
use std::alloc::Global;

/// The number that digits spell, at most the largest `u32`.
pub fn number_of(digits: &[u8]) -> u32
    ensures { result ≡ bases.number_of digits.now }
{
    let mut number = 0u32;
    for digit in digits {
        number = with_digit(number, *digit);
    }
    number
}

fn with_digit(number: u32, digit: u8) -> u32
    ensures { result ≡ bases.with_digit number digit }
{
    number
        .saturating_mul(10)
        .saturating_add(u32::from(digit.saturating_sub(b'0')))
}

/// The level number, or 0 where it isn't valid.
fn level_of(digits: &[u8]) -> u8
    ensures { result ≡ bases.level_of digits.now }
{
    level_by(number_of(digits))
}

fn level_by(number: u32) -> u8
    ensures { result ≡ bases.level_by number }
{
    if number < 50 || number == 77 || number == 88 {
        number as u8
    } else {
        0
    }
}

fn picture_by(text: &[u8]) -> Option<Picture>
    ensures { result ≡ bases.picture_by text.now }
{
    if text.len() >= 2_147_483_648 {
        return None;
    }
    match read_picture(text) {
        Ok(picture) => Some(picture),
        Err(_) => None,
    }
}

/// The picture of the first PICTURE clause, where its text is one.
fn picture_of(clauses: &[Clause]) -> Option<Picture>
    ensures { result ≡ bases.picture_of clauses.now }
{
    match clause_of(ClauseKind::Picture, clauses) {
        Some(Clause::Picture { text, .. }) => picture_by(text.as_slice()),
        _ => None,
    }
}

fn sign_by(leading: bool, separate: bool) -> Sign
    ensures { result ≡ bases.sign_by leading separate }
{
    if !separate {
        Sign::Within
    } else if leading {
        Sign::SeparateLeading
    } else {
        Sign::SeparateTrailing
    }
}

fn sign_of(clauses: &[Clause]) -> Sign
    ensures { result ≡ bases.sign_of clauses.now }
{
    match clause_of(ClauseKind::Sign, clauses) {
        Some(
            Clause::Sign {
                leading,
                separate,
                ..
            },
        ) => sign_by(*leading, *separate),
        _ => Sign::Within,
    }
}

/// Whether an item can repeat so often, from 1 to 65,535 times.
pub fn is_count(number: u32) -> bool
    ensures { result ≡ bases.is_count number }
{
    1 <= number && number <= 65535
}

/// A valid count of occurrences, or 1 in place of one that isn't valid.
fn count_of(digits: &[u8]) -> u32
    ensures { result ≡ bases.count_of digits.now }
{
    let number = number_of(digits);
    if is_count(number) { number } else { 1 }
}

fn occurs_of(clauses: &[Clause]) -> Option<u32>
    ensures { result ≡ bases.occurs_of clauses.now }
{
    match clause_of(ClauseKind::Occurs, clauses) {
        Some(Clause::Occurs { count, .. }) => Some(count_of(count.as_slice())),
        _ => None,
    }
}

/// The spans of the first VALUE clause.
pub fn spans_of(clauses: &[Clause]) -> &[SpanDraft]
    ensures { result.now ≡ bases.spans_of clauses.now }
{
    match clause_of(ClauseKind::Value, clauses) {
        Some(Clause::Value { spans, .. }) => spans.as_slice(),
        _ => &[],
    }
}

fn first_value(alloc: Global, spans: &[SpanDraft]) -> Result<Option<Operand>, NoMemory>
    ensures { Makes (bases.value_of spans.now) result }
{
    match spans {
        [] => Ok(None),
        [span, ..] => Ok(Some(span.from.copy(alloc)?)),
    }
}

fn last_of_span(alloc: Global, thru: &Option<ThruDraft>) -> Result<Option<Operand>, NoMemory>
    ensures { Makes (bases.to_of thru.now) result }
{
    match thru {
        None => Ok(None),
        Some(thru) => Ok(Some(thru.to.copy(alloc)?)),
    }
}

fn span_of(alloc: Global, span: &SpanDraft) -> Result<Span, NoMemory>
    ensures { Makes (bases.span_of span.now) result }
{
    let from = span.from.copy(alloc)?;
    let to = last_of_span(alloc, &span.thru)?;
    Ok(Span { from, to })
}

fn ranges_of(alloc: Global, spans: &[SpanDraft]) -> Result<Items<Span>, NoMemory>
    ensures { Makes (map bases.span_of spans.now) result }
{
    let mut ranges = Items::new(alloc);
    for span in spans {
        ranges.push(span_of(alloc, span)?)?;
    }
    Ok(ranges)
}

fn redefines_of(clauses: &[Clause]) -> Option<u32>
    ensures { result ≡ bases.redefines_of clauses.now }
{
    if has_clause(ClauseKind::Redefines, clauses) {
        Some(0)
    } else {
        None
    }
}

/// A level 88 of these values.
fn condition(alloc: Global, draft: &EntryDraft, file: Option<u32>) -> Result<Entry, NoMemory>
    ensures { Makes (bases.condition_of draft.now file) result }
{
    let ranges = ranges_of(alloc, spans_of(draft.clauses.as_slice()))?;
    Ok(Entry {
        level: 88,
        name: draft.name,
        file,
        redefines: None,
        picture: None,
        sign: Sign::Within,
        usage: Usage::Display,
        occurs: None,
        value: None,
        ranges,
    })
}

fn item(alloc: Global, draft: &EntryDraft, level: u8, file: Option<u32>) -> Result<Entry, NoMemory>
    ensures { Makes (bases.item_of draft.now level file) result }
{
    let clauses = draft.clauses.as_slice();
    let value = first_value(alloc, spans_of(clauses))?;
    Ok(Entry {
        level,
        name: draft.name,
        file,
        redefines: redefines_of(clauses),
        picture: picture_of(clauses),
        sign: sign_of(clauses),
        usage: Usage::Display,
        occurs: occurs_of(clauses),
        value,
        ranges: Items::new(alloc),
    })
}

/// The entry of a draft, with 0 for an item that it redefines and DISPLAY for its usage.
pub fn base_of(alloc: Global, draft: &EntryDraft, file: Option<u32>) -> Result<Entry, NoMemory>
    ensures { Makes (bases.base_of file draft.now) result }
{
    let level = level_of(draft.level.as_slice());
    if level == 88 {
        condition(alloc, draft, file)
    } else {
        item(alloc, draft, level, file)
    }
}
