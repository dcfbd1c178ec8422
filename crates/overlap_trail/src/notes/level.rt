//! The text of a range's level: the range, and the moves that are followed in it.

ghost use Rattle.std.specs.Prelude.{◌≡◌, ◌++◌, OnOk};
ghost use Rattle.std.specs.Fmt.{decimal};
ghost use Rattle.overlap_trail.specs.notes.Trail.{label_text, range_text, move_text, moves_text, level_text};

use cob_base::{NoMemory, Text};
use cob_tree::{Paragraph, Range};
use out_names::paragraph_label;
use program_points::paths::Move;
use std::alloc::Global;

/// Adds the label of a paragraph.
pub fn add_label(text: &mut Text, paragraphs: &[Paragraph], number: u32) -> Result<(), NoMemory>
    ensures { OnOk result (text.new ≡ text.old ++ label_text paragraphs.now number) }
{
    match paragraph_label(paragraphs, number) {
        Some(label) => text.add(label.as_slice()),
        None => text.add(b"*"),
    }
}

/// Adds the words, and the number after them.
pub fn add_numbered(
    alloc: Global,
    text: &mut Text,
    words: &[u8],
    number: usize,
) -> Result<(), NoMemory>
    ensures { OnOk result (text.new ≡ text.old ++ words.now ++ decimal number) }
{
    text.add(words)?;
    let number = format!(in alloc; "{number}")?;
    text.add(number.as_bytes())
}

/// Adds the text of a range.
fn add_range(text: &mut Text, paragraphs: &[Paragraph], range: Range) -> Result<(), NoMemory>
    ensures { OnOk result (text.new ≡ text.old ++ range_text paragraphs.now range) }
{
    match range.exit {
        None => text.add(b"MAIN"),
        Some(exit) => {
            add_label(text, paragraphs, range.entry)?;
            text.add(b" THRU ")?;
            add_label(text, paragraphs, exit)
        }
    }
}

/// Adds a move.
fn add_move(alloc: Global, text: &mut Text, moved: Move) -> Result<(), NoMemory>
    ensures { OnOk result (text.new ≡ text.old ++ move_text moved) }
{
    match moved {
        Move::Arm(number) => add_numbered(alloc, text, b" ARM ", number as usize),
        Move::Over(number) => add_numbered(alloc, text, b" OVER ", number as usize),
        Move::Into => text.add(b" INTO"),
    }
}

/// Adds these moves.
fn add_moves(alloc: Global, text: &mut Text, moves: &[Move]) -> Result<(), NoMemory>
    ensures { OnOk result (text.new ≡ text.old ++ moves_text moves.now) }
{
    for moved in moves {
        add_move(alloc, text, *moved)?;
    }
    Ok(())
}

/// Adds a level.
pub fn add_level(
    alloc: Global,
    text: &mut Text,
    paragraphs: &[Paragraph],
    range: Range,
    moves: &[Move],
) -> Result<(), NoMemory>
    ensures { OnOk result (text.new ≡ text.old ++ level_text paragraphs.now range moves.now) }
{
    add_range(text, paragraphs, range)?;
    text.add(b":")?;
    add_moves(alloc, text, moves)
}
