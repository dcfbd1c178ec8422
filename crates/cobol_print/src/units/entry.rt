//! Entries of the data division as units.

ghost use Rattle.std.specs.Prelude.{◌≡◌, ◌++◌, ◌∷◌, [], true, Some, OnOk};
ghost use Rattle.cob_base.specs.Answers.{Makes};
ghost use Rattle.cobol_lex.specs.declared.token.TokenKind.TheVariants as kind;
ghost use Rattle.unparser.specs.Place.{entry_name, item_name};
ghost use Rattle.unparser.specs.Token.{is_reserved_shape};
ghost use Rattle.cobol_print.specs.units.Entry.{level_text, level_column, redefines_tokens, picture_tokens, usage_tokens, sign_tokens, occurs_tokens, value_tokens, span_tokens, spans_tokens, ranges_tokens, clauses_tokens, entry_unit};

use crate::units::picture::{add_decimal, picture_text};
use crate::units::unit::Units;
use cob_base::{NoMemory, Text};
use cob_tree::{Entry, Operand, Picture, Program, Sign, Span, Usage};
use cobol_lex::TokenKind;
use std::alloc::Global;
use unparser::Tokens;

/// A level number, as two digits.
fn level_text(alloc: Global, level: u8) -> Result<Text, NoMemory>
    ensures { Makes (level_text level) result }
{
    let mut text = Text::new(alloc);
    if level < 10 {
        text.add(b"0")?;
    }
    add_decimal(alloc, &mut text, u32::from(level))?;
    Ok(text)
}

fn level_column(level: u8) -> usize
    ensures { result ≡ level_column level }
{
    if level == 1 || level == 77 { 8 } else { 12 }
}

fn add_name(tokens: &mut Tokens, entry: &Entry) -> Result<(), NoMemory>
    ensures { OnOk result
        (tokens.new ≡ tokens.old ++ kind.Word (entry_name (Some entry.now)) ∷ []) }
{
    match entry.name {
        None => tokens.word(b"FILLER"),
        Some(name) => tokens.name(name),
    }
}

/// Adds a word of the language and the name of an item.
fn add_item(
    tokens: &mut Tokens,
    text: &[u8],
    program: &Program,
    number: u32,
) -> Result<(), NoMemory>
    requires { is_reserved_shape text.now ≡ true }
    ensures { OnOk result (tokens.new ≡ tokens.old ++
        kind.Word text.now ∷ kind.Word (item_name program.now number) ∷ []) }
{
    tokens.word(text)?;
    tokens.item(program, number)
}

fn add_redefines(
    tokens: &mut Tokens,
    program: &Program,
    redefines: Option<u32>,
) -> Result<(), NoMemory>
    ensures { OnOk result (tokens.new ≡ tokens.old ++ redefines_tokens program.now redefines) }
{
    match redefines {
        None => Ok(()),
        Some(number) => add_item(tokens, b"REDEFINES", program, number),
    }
}

fn add_picture(alloc: Global, tokens: &mut Tokens, picture: Option<Picture>) -> Result<(), NoMemory>
    ensures { OnOk result (tokens.new ≡ tokens.old ++ picture_tokens picture) }
{
    let Some(picture) = picture else {
        return Ok(());
    };
    tokens.word(b"PIC")?;
    let text = picture_text(alloc, picture)?;
    tokens.push(TokenKind::Picture(text))
}

fn add_usage(tokens: &mut Tokens, usage: Usage) -> Result<(), NoMemory>
    ensures { OnOk result (tokens.new ≡ tokens.old ++ usage_tokens usage) }
{
    match usage {
        Usage::Display => Ok(()),
        Usage::Binary => tokens.word(b"BINARY"),
        Usage::Packed => tokens.word(b"PACKED-DECIMAL"),
    }
}

/// Adds three words of the language.
fn add_words(tokens: &mut Tokens, first: &[u8], second: &[u8], third: &[u8]) -> Result<(), NoMemory>
    requires first { is_reserved_shape first.now ≡ true }
    requires second { is_reserved_shape second.now ≡ true }
    requires third { is_reserved_shape third.now ≡ true }
    ensures { OnOk result (tokens.new ≡ tokens.old ++
        kind.Word first.now ∷ kind.Word second.now ∷ kind.Word third.now ∷ []) }
{
    tokens.two_words(first, second)?;
    tokens.word(third)
}

fn add_sign(tokens: &mut Tokens, sign: Sign) -> Result<(), NoMemory>
    ensures { OnOk result (tokens.new ≡ tokens.old ++ sign_tokens sign) }
{
    match sign {
        Sign::Within => Ok(()),
        Sign::SeparateLeading => add_words(tokens, b"SIGN", b"LEADING", b"SEPARATE"),
        Sign::SeparateTrailing => add_words(tokens, b"SIGN", b"TRAILING", b"SEPARATE"),
    }
}

fn add_occurs(alloc: Global, tokens: &mut Tokens, occurs: Option<u32>) -> Result<(), NoMemory>
    ensures { OnOk result (tokens.new ≡ tokens.old ++ occurs_tokens occurs) }
{
    let Some(count) = occurs else {
        return Ok(());
    };
    tokens.word(b"OCCURS")?;
    let mut text = Text::new(alloc);
    add_decimal(alloc, &mut text, count)?;
    tokens.push(TokenKind::Digits(text))
}

fn add_value(
    tokens: &mut Tokens,
    program: &Program,
    value: &Option<Operand>,
) -> Result<(), NoMemory>
    ensures { OnOk result (tokens.new ≡ tokens.old ++ value_tokens program.now value.now) }
{
    match value {
        None => Ok(()),
        Some(value) => {
            tokens.word(b"VALUE")?;
            tokens.operand(program, value)
        }
    }
}

fn add_span(tokens: &mut Tokens, program: &Program, span: &Span) -> Result<(), NoMemory>
    ensures { OnOk result (tokens.new ≡ tokens.old ++ span_tokens program.now span.now) }
{
    tokens.operand(program, &span.from)?;
    match &span.to {
        None => Ok(()),
        Some(to) => {
            tokens.word(b"THRU")?;
            tokens.operand(program, to)
        }
    }
}

fn add_spans(tokens: &mut Tokens, program: &Program, spans: &[Span]) -> Result<(), NoMemory>
    ensures { OnOk result (tokens.new ≡ tokens.old ++ spans_tokens program.now spans.now) }
{
    for span in spans {
        add_span(tokens, program, span)?;
    }
    Ok(())
}

fn add_ranges(tokens: &mut Tokens, program: &Program, ranges: &[Span]) -> Result<(), NoMemory>
    ensures { OnOk result (tokens.new ≡ tokens.old ++ ranges_tokens program.now ranges.now) }
{
    if ranges.len() == 0 {
        return Ok(());
    }
    tokens.word(b"VALUE")?;
    add_spans(tokens, program, ranges)
}

fn add_clauses(
    alloc: Global,
    tokens: &mut Tokens,
    program: &Program,
    entry: &Entry,
) -> Result<(), NoMemory>
    ensures { OnOk result (tokens.new ≡ tokens.old ++ clauses_tokens program.now entry.now) }
{
    add_redefines(tokens, program, entry.redefines)?;
    add_picture(alloc, tokens, entry.picture)?;
    add_usage(tokens, entry.usage)?;
    add_sign(tokens, entry.sign)?;
    add_occurs(alloc, tokens, entry.occurs)?;
    add_value(tokens, program, &entry.value)?;
    add_ranges(tokens, program, entry.ranges.as_slice())
}

impl Units {
    /// Adds the line of a data description entry.
    pub fn entry(&mut self, alloc: Global, program: &Program, entry: &Entry) -> Result<(), NoMemory>
        ensures { OnOk result (self.new ≡ self.old ++ entry_unit program.now entry.now ∷ []) }
    {
        let mut tokens = self.tokens();
        let level = level_text(alloc, entry.level)?;
        tokens.push(TokenKind::Digits(level))?;
        add_name(&mut tokens, entry)?;
        add_clauses(alloc, &mut tokens, program, entry)?;
        tokens.push(TokenKind::Period)?;
        self.push(level_column(entry.level), tokens)
    }
}
