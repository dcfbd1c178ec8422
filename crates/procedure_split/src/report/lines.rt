//! The lines of a report.

ghost use Rattle.std.specs.Prelude.{◌≡◌, ◌++◌, OnOk};
ghost use Rattle.cob_base.specs.Answers.{Makes};
ghost use Rattle.procedure_split.specs.report.Lines as lines;
ghost use Rattle.procedure_split.specs.report.Lines.{name_line, number_line, dropped_line, dropped_lines, added_lines};

use crate::report::report::Report;
use cob_base::{NoMemory, Text, Word};
use std::alloc::Global;

/// Adds a line with a name.
fn add_name(text: &mut Text, words: &[u8], name: &[u8]) -> Result<(), NoMemory>
    ensures { OnOk result (text.new ≡ text.old ++ name_line words.now name.now) }
{
    text.add(words)?;
    text.add(name)?;
    text.add(b"\n")
}

/// Adds a line with a number.
fn add_number(alloc: Global, text: &mut Text, words: &[u8], number: usize) -> Result<(), NoMemory>
    ensures { OnOk result (text.new ≡ text.old ++ number_line words.now number) }
{
    let digits = format!(in alloc; "{number}")?;
    add_name(text, words, digits.as_bytes())
}

/// Adds the line of a paragraph that is dropped.
fn add_dropped(text: &mut Text, label: Option<Word>) -> Result<(), NoMemory>
    ensures { OnOk result (text.new ≡ text.old ++ dropped_line label) }
{
    match label {
        Some(label) => add_name(text, b"DROPPED ", label.as_slice()),
        None => add_name(text, b"DROPPED ", b"*"),
    }
}

/// Adds a line for each paragraph that is dropped.
fn add_all_dropped(text: &mut Text, labels: &[Option<Word>]) -> Result<(), NoMemory>
    ensures { OnOk result (text.new ≡ text.old ++ dropped_lines labels.now) }
{
    for label in labels {
        add_dropped(text, *label)?;
    }
    Ok(())
}

/// Adds the lines of the items that are added.
fn add_added(alloc: Global, text: &mut Text, report: &Report) -> Result<(), NoMemory>
    ensures { OnOk result (text.new ≡ text.old ++ added_lines report.now) }
{
    add_number(alloc, text, b"NEVER ", report.never as usize)?;
    add_number(alloc, text, b"FLAGS ", report.flags as usize)?;
    add_number(alloc, text, b"COUNTS ", report.counts as usize)?;
    add_number(alloc, text, b"STATES ", report.states as usize)?;
    add_number(alloc, text, b"EXITS ", report.exits as usize)
}

/// The lines of a report, each with its line feed.
pub fn report_text(alloc: Global, report: &Report) -> Result<Text, NoMemory>
    ensures { Makes (lines.report_text report.now) result }
{
    let mut text = Text::new(alloc);
    add_name(&mut text, b"PROGRAM ", report.name.as_slice())?;
    add_number(alloc, &mut text, b"PARAGRAPHS ", report.paragraphs as usize)?;
    add_number(alloc, &mut text, b"RANGES ", report.ranges as usize)?;
    add_number(alloc, &mut text, b"UNREACHABLE ", report.dropped.len())?;
    add_all_dropped(&mut text, report.dropped.as_slice())?;
    add_added(alloc, &mut text, report)?;
    Ok(text)
}
