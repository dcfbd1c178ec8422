//! A trail's lines.

ghost use Rattle.std.specs.Prelude.{◌≡◌, ◌++◌, OnOk};
ghost use Rattle.cob_base.specs.Answers.{Makes};
ghost use Rattle.overlap_trail.specs.notes.Trail as trails;
ghost use Rattle.overlap_trail.specs.notes.Trail.{lemma_lines, hop_lines};

use crate::notes::level::{add_label, add_level, add_numbered};
use cob_base::{NoMemory, Text};
use cob_tree::{FlowFault, Paragraph};
use program_points::paths::{Hop, Lemma, Trail};
use std::alloc::Global;

/// The line that names a fault of a program with these paragraphs, without its line feed.
pub fn fault_text(
    alloc: Global,
    paragraphs: &[Paragraph],
    fault: FlowFault,
) -> Result<Text, NoMemory>
    ensures { Makes (trails.fault_text paragraphs.now fault) result }
{
    let mut text = Text::new(alloc);
    match fault {
        FlowFault::Overlap(paragraph) => {
            text.add(b"FLOW OVERLAP ")?;
            add_label(&mut text, paragraphs, paragraph)?;
        }
        FlowFault::Reentry(paragraph) => {
            text.add(b"FLOW REENTRY ")?;
            add_label(&mut text, paragraphs, paragraph)?;
        }
    }
    Ok(text)
}

/// Adds a line for each lemma.
fn add_lemmas(
    alloc: Global,
    text: &mut Text,
    paragraphs: &[Paragraph],
    lemmas: &[Lemma],
) -> Result<(), NoMemory>
    ensures { OnOk result (text.new ≡ text.old ++ lemma_lines paragraphs.now 0 lemmas.now) }
{
    for (number, lemma) in lemmas.iter().enumerate() {
        add_numbered(alloc, text, b"\nRETURN ", number)?;
        text.add(b" ")?;
        add_level(alloc, text, paragraphs, lemma.range, lemma.moves.as_slice())?;
    }
    Ok(())
}

/// Adds a line for each hop.
fn add_hops(
    alloc: Global,
    text: &mut Text,
    paragraphs: &[Paragraph],
    hops: &[Hop],
) -> Result<(), NoMemory>
    ensures { OnOk result (text.new ≡ text.old ++ hop_lines paragraphs.now hops.now) }
{
    for hop in hops {
        text.add(b"\nIN ")?;
        add_level(alloc, text, paragraphs, hop.range, hop.moves.as_slice())?;
    }
    Ok(())
}

/// The lines of a trail of a program with these paragraphs, without the last one's line feed.
pub fn trail_text(alloc: Global, paragraphs: &[Paragraph], trail: &Trail) -> Result<Text, NoMemory>
    ensures { Makes (trails.trail_text paragraphs.now trail.now) result }
{
    let mut text = fault_text(alloc, paragraphs, trail.fault)?;
    add_lemmas(alloc, &mut text, paragraphs, trail.lemmas.as_slice())?;
    add_hops(alloc, &mut text, paragraphs, trail.hops.as_slice())?;
    Ok(text)
}
