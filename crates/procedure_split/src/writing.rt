//! Writes the program of shaped ranges.

ghost use Rattle.std.specs.Prelude.{◌≡◌, ◌++◌, ◌+◌, ◌<◌, ◌^◌, length, map, IfOk, IsTrue};
ghost use Rattle.cob_base.specs.Answers.{Makes};
ghost use Rattle.cobol_theory.specs.cell_serving.Entries.{entries_of};
ghost use Rattle.added_items.specs.item_table.Naming.{seen_item};
ghost use Rattle.out_names.specs.Words.{program_words};
ghost use Rattle.procedure_split.specs.Writing.{IsWrittenWith, split_of, with_parts};

use crate::counting::counts_of;
use crate::entries::entries_with;
use crate::paragraphs::paragraphs_of;
use crate::placing::places_of;
use crate::report::AddedCounts;
use crate::rows::rows_of;
use crate::shaped_ranges::Closed;
use added_items::item_table::{AddedItem, give_items};
use cob_base::{Copied, Items, NoMemory};
use cob_tree::{Paragraph, Program, Range};
use out_names::{names, word_table};
use std::alloc::Global;

/// A program with a list of this length or longer is out of memory.
const MOST: usize = 1 << 28;

/// A program that another one is split into, and how many added items of each kind it has.
#[derive(Drop)]
pub struct Split {
    pub program: Program,
    pub added: AddedCounts,
}

/// Whether 32 bits suffice to number its words and procedures.
#[tactic(auto, using(crate::proofs::WordCounts::word_count))]
fn is_small(program: &Program, order: &[Range]) -> bool
    ensures entries { IsTrue result → length program.now.entries < 2 ^ 28 }
    ensures words { IsTrue result → length (program_words program.now) < 2 ^ 30 + 1 }
    ensures ranges { IsTrue result → length order.now < 2 ^ 28 }
{
    if program.files.len() >= MOST {
        return false;
    }
    if program.entries.len() >= MOST {
        return false;
    }
    if program.paragraphs.len() >= MOST {
        return false;
    }
    order.len() < MOST
}

/// The program with other entries and paragraphs.
fn with_parts(
    alloc: Global,
    program: &Program,
    added: &[AddedItem],
    paragraphs: Items<Paragraph>,
) -> Result<Program, NoMemory>
    ensures { Makes (with_parts program.now
        (program.now.entries ++ entries_of (map seen_item added.now)) paragraphs) result }
{
    match entries_with(alloc, &program.entries, added) {
        Ok(entries) => match program.files.copy(alloc) {
            Ok(files) => Ok(Program {
                name: program.name,
                files,
                entries,
                paragraphs,
            }),
            Err(fault) => {
                drop(entries);
                drop(paragraphs);
                Err(fault)
            }
        },
        Err(fault) => {
            drop(paragraphs);
            Err(fault)
        }
    }
}

/// The program with these paragraphs, and with entries for these added items, which are counted.
fn split_of(
    alloc: Global,
    program: &Program,
    items: &[AddedItem],
    paragraphs: Items<Paragraph>,
) -> Result<Split, NoMemory>
    ensures { Makes (split_of program.now items.now paragraphs) result }
{
    match counts_of(items) {
        Ok(added) => match with_parts(alloc, program, items, paragraphs) {
            Ok(program) => Ok(Split { program, added }),
            Err(fault) => Err(fault),
        },
        Err(fault) => {
            drop(paragraphs);
            Err(fault)
        }
    }
}

/// The program whose procedures are these ranges, which were shaped to these bodies, with how many
/// items are added. Err where memory runs out, where 32 bits don't suffice to number its parts,
/// where a cell has no item, and where a statement of the program has a word on an added item.
pub fn write_program(
    alloc: Global,
    program: &Program,
    order: &[Range],
    closed: &mut [Closed],
) -> Result<Split, NoMemory>
    requires { length closed.old ≡ length order.now }
    ensures { IfOk result (IsWrittenWith program.now order.now closed.old) }
{
    if !is_small(program, order) {
        return Err(NoMemory);
    }
    let words = word_table(alloc, program)?;
    let labels = names(alloc, program, order)?;
    let places = places_of(alloc, order)?;
    let rows = rows_of(alloc, order, closed)?;
    let first = program.entries.len() as u32;
    let given = give_items(alloc, &words, first, rows.as_slice())?;
    drop(rows);
    let cells = given.cells.as_slice();
    match paragraphs_of(
        alloc,
        order,
        closed,
        cells,
        places.as_slice(),
        labels.as_slice(),
    ) {
        Ok(paragraphs) => split_of(alloc, program, given.added.as_slice(), paragraphs),
        Err(fault) => Err(fault),
    }
}
