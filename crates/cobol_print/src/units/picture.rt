//! Pictures and numbers as text.

ghost use Rattle.std.specs.Prelude.{◌≡◌, ◌++◌, ◌≤◌, OnOk, decimal, length};
ghost use Rattle.cob_base.specs.Answers.{Makes};
ghost use Rattle.edit_fields.specs.Laws.{printed};
ghost use Rattle.cobol_print.specs.units.Picture.{run_text, some_run, part_text, picture_text};

use cob_base::{NoMemory, Text};
use cob_tree::Picture;
use std::alloc::Global;

/// Adds a number in decimal digits.
pub fn add_decimal(alloc: Global, text: &mut Text, number: u32) -> Result<(), NoMemory>
    ensures { OnOk result (text.new ≡ text.old ++ decimal number) }
{
    let digits = format!(in alloc; "{number}")?;
    text.add(digits.as_bytes())
}

/// Adds a run of a symbol of a picture: alone, or with its count.
fn add_run(alloc: Global, text: &mut Text, symbol: u8, count: u32) -> Result<(), NoMemory>
    ensures { OnOk result (text.new ≡ text.old ++ run_text symbol count) }
{
    text.add(&[symbol])?;
    if count == 1 {
        return Ok(());
    }
    text.add(b"(")?;
    add_decimal(alloc, text, count)?;
    text.add(b")")
}

fn add_whole(alloc: Global, text: &mut Text, whole: u8) -> Result<(), NoMemory>
    ensures { OnOk result (text.new ≡ text.old ++ some_run whole) }
{
    if whole == 0 {
        Ok(())
    } else {
        add_run(alloc, text, b'9', u32::from(whole))
    }
}

fn add_part(alloc: Global, text: &mut Text, part: u8) -> Result<(), NoMemory>
    ensures { OnOk result (text.new ≡ text.old ++ part_text part) }
{
    if part == 0 {
        return Ok(());
    }
    text.add(b"V")?;
    add_run(alloc, text, b'9', u32::from(part))
}

/// Adds the symbols of a mask, each run of one with its count.
fn add_mask(alloc: Global, text: &mut Text, mask: &[u8]) -> Result<(), NoMemory>
    requires { length mask.now ≤ 160 }
    ensures { OnOk result (text.new ≡ text.old ++ printed mask.now) }
{
    let Some((first, rest)) = mask.split_first() else {
        return Ok(());
    };
    let mut symbol = *first;
    let mut run = 1;
    for byte in rest {
        if symbol == *byte {
            run += 1;
            continue;
        }
        add_run(alloc, text, symbol, run)?;
        symbol = *byte;
        run = 1;
    }
    add_run(alloc, text, symbol, run)
}

/// The text of a picture, with counts.
pub fn picture_text(alloc: Global, picture: Picture) -> Result<Text, NoMemory>
    ensures { Makes (picture_text picture) result }
{
    let mut text = Text::new(alloc);
    match picture {
        Picture::Number {
            signed,
            whole,
            part,
        } => {
            if signed {
                text.add(b"S")?;
            }
            add_whole(alloc, &mut text, whole)?;
            add_part(alloc, &mut text, part)?;
        }
        Picture::Letters(count) => add_run(alloc, &mut text, b'A', count)?,
        Picture::Any(count) => add_run(alloc, &mut text, b'X', count)?,
        Picture::Edited(mask) => add_mask(alloc, &mut text, mask.as_slice())?,
    }
    Ok(text)
}
