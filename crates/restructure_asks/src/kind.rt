//! What isn't in the subset: the kind of each fault of reading, and its line.

ghost use Rattle.cob_base.specs.Answers.{Makes};
ghost use Rattle.cobol_read.specs.declared.refusal.ReadFault.TheVariants as read;
ghost use Rattle.restructure_asks.specs.Kind as kinds;

use cob_base::{NoMemory, Text, Word};
use cob_tree::{NameFault, ParseFault};
use cobol_lex::LexFault;
use cobol_read::ReadFault;
use ref_format::FormatFault;
use std::alloc::Global;

/// The kind and the line of a fault of reading, as the line of status 2 gives them.
pub fn kind_at(alloc: Global, fault: &ReadFault) -> Result<Text, NoMemory>
    ensures { Makes (kinds.kind_at fault.now) result }
{
    match fault {
        ReadFault::Format(fault) => format_kind(alloc, fault),
        ReadFault::Lex(fault) => lex_kind(alloc, fault),
        ReadFault::LeftOut(word, line) => left_out_kind(alloc, word, *line),
        ReadFault::Power(line) => at_line(alloc, b"LEFT-OUT **", *line),
        ReadFault::Parse(fault) => parse_kind(alloc, fault),
    }
}

fn format_kind(alloc: Global, fault: &FormatFault) -> Result<Text, NoMemory>
    ensures { Makes (kinds.format_kind fault.now) result }
{
    match fault {
        FormatFault::BadIndicator(line) => at_line(alloc, b"BAD-INDICATOR", *line),
        FormatFault::BadByte(line) => at_line(alloc, b"BAD-BYTE", *line),
        FormatFault::BadContinuation(line) => at_line(alloc, b"BAD-CONTINUATION", *line),
    }
}

fn lex_kind(alloc: Global, fault: &LexFault) -> Result<Text, NoMemory>
    ensures { Makes (kinds.lex_kind fault.now) result }
{
    match fault {
        LexFault::OpenLiteral(line) => at_line(alloc, b"OPEN-LITERAL", *line),
        LexFault::BadWord(line) => at_line(alloc, b"BAD-WORD", *line),
        LexFault::BadNumber(line) => at_line(alloc, b"BAD-NUMBER", *line),
        LexFault::TooManyDigits(line) => at_line(alloc, b"TOO-MANY-DIGITS", *line),
    }
}

fn parse_kind(alloc: Global, fault: &ParseFault) -> Result<Text, NoMemory>
    ensures { Makes (kinds.parse_kind fault.now) result }
{
    match fault {
        ParseFault::Syntax(line) => at_line(alloc, b"SYNTAX", *line),
        ParseFault::Name(fault) => name_kind(alloc, fault),
    }
}

fn name_kind(alloc: Global, fault: &NameFault) -> Result<Text, NoMemory>
    ensures { Makes (kinds.name_kind fault.now) result }
{
    match fault {
        NameFault::Duplicate(line) => at_line(alloc, b"DUPLICATE", *line),
        NameFault::Unknown(line) => at_line(alloc, b"UNKNOWN", *line),
        NameFault::Ambiguous(line) => at_line(alloc, b"AMBIGUOUS", *line),
        NameFault::Level(line) => at_line(alloc, b"LEVEL", *line),
        NameFault::Picture(line) => at_line(alloc, b"PICTURE", *line),
        NameFault::Redefines(line) => at_line(alloc, b"REDEFINES", *line),
        NameFault::Value(line) => at_line(alloc, b"VALUE", *line),
        NameFault::Usage(line) => at_line(alloc, b"USAGE", *line),
    }
}

fn left_out_kind(alloc: Global, word: &Word, line: u32) -> Result<Text, NoMemory>
    ensures { Makes (kinds.kind_at (read.LeftOut word.now line)) result }
{
    let mut kind = Text::new(alloc);
    kind.add(b"LEFT-OUT ")?;
    kind.add(word.as_slice())?;
    at_line(alloc, kind.as_slice(), line)
}

fn at_line(alloc: Global, kind: &[u8], line: u32) -> Result<Text, NoMemory>
    ensures { Makes (kinds.at_line kind.now line) result }
{
    let mut text = Text::new(alloc);
    text.add(kind)?;
    text.add(b" LINE ")?;
    let number = format!(in alloc; "{line}")?;
    text.add(number.as_bytes())?;
    Ok(text)
}
