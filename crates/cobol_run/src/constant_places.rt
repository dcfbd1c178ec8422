//! The places of a program whose subscripts and windows are numbers alone, found before it runs.
//!
//! `with_known` goes over all places of a program, including those in subscripts and windows, and
//! keeps the spot of each that is of numbers alone with its item. To contracts the areas stay the
//! same: a place is reached at the same spot, in less time.

mod conditions;
mod places;
mod statements;

ghost use Rattle.std.specs.Prelude.{◌≡◌, IfOk};

use crate::constant_places::places::know_any;
use crate::constant_places::statements::know_stmts;
use cob_base::{Items, NoMemory};
use cob_store::{Area, Areas, Store};
use cob_tree::{Paragraph, Program, Sentence};

fn know_sentences(areas: &mut [Area], store: &Store, sentences: &[Sentence]) -> Result<(), NoMemory>
    ensures { areas.new ≡ areas.old }
{
    for sentence in sentences {
        know_stmts(areas, store, sentence.stmts.as_slice())?;
    }
    Ok(())
}

fn know_paragraphs(
    areas: &mut [Area],
    store: &Store,
    paragraphs: &[Paragraph],
) -> Result<(), NoMemory>
    ensures { areas.new ≡ areas.old }
{
    for paragraph in paragraphs {
        know_sentences(areas, store, paragraph.sentences.as_slice())?;
    }
    Ok(())
}

fn know_program(areas: &mut [Area], store: &Store, program: &Program) -> Result<(), NoMemory>
    ensures { areas.new ≡ areas.old }
{
    for file in program.files.as_slice() {
        know_any(areas, store, &file.status)?;
    }
    know_paragraphs(areas, store, program.paragraphs.as_slice())
}

/// The areas of a program, with the spots of its places of numbers alone kept. To contracts they
/// are the same.
pub fn with_known(program: &Program, areas: Areas, store: &Store) -> Result<Areas, NoMemory>
    ensures { IfOk result (λ now. now ≡ areas) }
{
    let Areas { items, roots } = areas;
    let mut items = items.into_vec();
    know_program(items.as_mut_slice(), store, program)?;
    Ok(Areas {
        items: Items::from_vec(items),
        roots,
    })
}
