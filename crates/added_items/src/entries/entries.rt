//! The entries of added items.

ghost use Rattle.std.specs.Prelude.{◌≡◌, ◌++◌, map, OnOk};
ghost use Rattle.cob_base.specs.Answers.{Makes};
ghost use Rattle.cobol_theory.specs.cell_items.Cell.{number_operand};
ghost use Rattle.cobol_theory.specs.cell_serving.Entries.{cell_entry, entries_of, whole_literal};
ghost use Rattle.branch_tree.specs.Graph.{seen_added};
ghost use Rattle.added_items.specs.item_table.Naming.{digits_of, is_signed, seen_item};

use crate::item_table::AddedItem;
use branch_tree::Added;
use cob_base::{Items, NoMemory};
use cob_tree::{Entry, Number, Operand, Picture, Sign, SpelledDigits, Usage};
use cob_words::numbered::numbered_text;
use std::alloc::Global;

fn digits_of(kind: Added) -> u8
    ensures { result ≡ digits_of (seen_added kind) }
{
    match kind {
        Added::Never => 1,
        Added::Flag => 1,
        Added::Count => 18,
        Added::State => 6,
        Added::Exit => 6,
    }
}

fn is_signed(kind: Added) -> bool
    ensures { result ≡ is_signed (seen_added kind) }
{
    match kind {
        Added::Never => false,
        Added::Flag => false,
        Added::Count => true,
        Added::State => false,
        Added::Exit => false,
    }
}

fn zero(alloc: Global) -> Result<Operand, NoMemory>
    ensures { Makes (number_operand (whole_literal 0)) result }
{
    let digits = numbered_text(alloc, &[], 0)?;
    Ok(Operand::Number(Number {
        negative: false,
        digits: SpelledDigits::new(digits),
        scale: 0,
    }))
}

/// The entry of the item, of level 01, with VALUE 0.
fn entry_of(alloc: Global, item: &AddedItem) -> Result<Entry, NoMemory>
    ensures { Makes (cell_entry item.now.name (digits_of (seen_added item.now.kind))
        (is_signed (seen_added item.now.kind))) result }
{
    match zero(alloc) {
        Ok(value) => Ok(Entry {
            level: 1,
            name: Some(item.name),
            file: None,
            redefines: None,
            picture: Some(Picture::Number {
                signed: is_signed(item.kind),
                whole: digits_of(item.kind),
                part: 0,
            }),
            sign: Sign::Within,
            usage: Usage::Display,
            occurs: None,
            value: Some(value),
            ranges: Items::new(alloc),
        }),
        Err(fault) => Err(fault),
    }
}

/// Adds the entries of added items after others.
pub fn add_entries(
    alloc: Global,
    entries: &mut Items<Entry>,
    items: &[AddedItem],
) -> Result<(), NoMemory>
    ensures { OnOk result (entries.new ≡ entries.old ++ entries_of (map seen_item items.now)) }
{
    for item in items {
        entries.push(entry_of(alloc, item)?)?;
    }
    Ok(())
}
