//! The paragraphs of the structured program.

ghost use Rattle.std.specs.Prelude.{◌≡◌, IfOk};
ghost use Rattle.cob_base.specs.Answers.{Makes};
ghost use Rattle.lowering_labels.specs.points.FallThrough.{seen_range};
ghost use Rattle.branch_tree.specs.Tree.{seen_tree};
ghost use Rattle.body_rendering.specs.Procedure.{is_main};
ghost use Rattle.procedure_split.specs.made_procedures.Made.{AreAsMany, AreParagraphsOf, IsParagraphOf};
ghost use Rattle.procedure_split.specs.Paragraphs.{paragraph_named};

use crate::shaped_ranges::Closed;
use body_rendering::write_procedure;
use branch_tree::{End, Tree};
use cob_base::{Items, NoMemory, Word};
use cob_tree::{Paragraph, Range, Sentence};
use statement_builders::arms::ProcedurePlace;
use statement_builders::item_words::CellItem;
use std::alloc::Global;
use std::collections::VecDeque;
use std::mem;

fn is_main(range: Range) -> bool
    ensures { result ≡ is_main (seen_range range) }
{
    match range.exit {
        None => true,
        Some(_) => false,
    }
}

/// A paragraph in no section that holds one sentence.
fn paragraph_named(alloc: Global, name: Word, sentence: Sentence) -> Result<Paragraph, NoMemory>
    ensures { Makes (paragraph_named name sentence) result }
{
    let mut sentences = Items::new(alloc);
    match sentences.push(sentence) {
        Ok(()) => Ok(Paragraph {
            name: Some(name),
            section: None,
            sentences,
        }),
        Err(fault) => {
            drop(sentences);
            Err(fault)
        }
    }
}

/// The paragraph of a range that was shaped to this tree.
fn paragraph_of(
    alloc: Global,
    range: Range,
    tree: Tree,
    cells: &[CellItem],
    places: &[ProcedurePlace],
    name: Word,
) -> Result<Paragraph, NoMemory>
    ensures { IfOk result (λ made. IsParagraphOf cells.now places.now (is_main (seen_range range))
        (seen_tree tree) name made) }
{
    match write_procedure(alloc, tree, is_main(range), cells, places) {
        Ok(sentence) => paragraph_named(alloc, name, sentence),
        Err(fault) => Err(fault),
    }
}

/// Takes the tree, and leaves an empty one.
fn take_tree(alloc: Global, closed: &mut Closed) -> Tree
    ensures { result ≡ closed.old.tree }
{
    let empty = Tree {
        body: VecDeque::new(alloc),
        end: End::Dead,
    };
    mem::replace(&mut closed.tree, empty)
}

/// The paragraphs of these ranges, in their order, each with the items of its cells and its name.
/// Err where `write_procedure` answers one.
pub fn paragraphs_of(
    alloc: Global,
    order: &[Range],
    closed: &mut [Closed],
    cells: &[Items<CellItem>],
    places: &[ProcedurePlace],
    names: &[Word],
) -> Result<Items<Paragraph>, NoMemory>
    requires { AreAsMany order.now closed.old cells.now names.now }
    ensures { IfOk result (λ made.
        AreParagraphsOf order.now closed.old cells.now places.now names.now made) }
{
    let mut made = Items::new(alloc);
    for at in 0..order.len() {
        let own = cells[at].as_slice();
        let tree = take_tree(alloc, &mut closed[at]);
        match paragraph_of(alloc, order[at], tree, own, places, names[at]) {
            Ok(paragraph) => match made.push(paragraph) {
                Ok(()) => {}
                Err(fault) => {
                    drop(made);
                    return Err(fault);
                }
            },
            Err(fault) => {
                drop(made);
                return Err(fault);
            }
        }
    }
    Ok(made)
}
