//! What is still to do in a paragraph, and the pending returns.

ghost use Rattle.std.specs.Prelude.{◌≡◌, ◌++◌, ◌∷◌, ◌<◌, IfOk, OnOk, MatchResult};
ghost use Rattle.std.specs.Vec.{vec_len, vec_capacity};
ghost use Rattle.meanings.specs.plain.Stepped.{whole_rest, sentence_items, is_pending};
ghost use Rattle.meanings.specs.declared.plain.state.Item.TheVariants.{Stmt};

use crate::plain::state::{Item, Waiting};
use cob_base::{Copied, Items, NoMemory};
use cob_tree::{Program, Sentence};
use std::alloc::Global;

/// The whole rest of a paragraph; nothing after the last one.
pub fn whole_rest(alloc: Global, program: &Program, number: u32) -> Result<Items<Item>, NoMemory>
    ensures { IfOk result (λ rest. rest ≡ whole_rest program.now number) }
{
    let mut rest = Items::new(alloc);
    if let Some(paragraph) = program.paragraphs.get(number as usize) {
        for sentence in paragraph.sentences.as_slice() {
            add_sentence(alloc, &mut rest, sentence)?;
        }
    }
    Ok(rest)
}

fn add_sentence(alloc: Global, rest: &mut Items<Item>, sentence: &Sentence) -> Result<(), NoMemory>
    ensures { OnOk result (rest.new ≡ rest.old ++ sentence_items sentence.now) }
{
    for stmt in sentence.stmts.as_slice() {
        rest.push(Item::Stmt(stmt.copy(alloc)?))?;
    }
    rest.push(Item::SentenceEnd)
}

/// Whether a return is pending at the end of this paragraph.
pub fn is_pending(number: u32, pending: &[Waiting]) -> bool
    ensures { result ≡ is_pending number pending.now }
{
    for waiting in pending {
        if waiting.end == number {
            return true;
        }
    }
    false
}

/// The pending returns, with room for one more; where there is no memory, they are given back.
pub fn with_room(pending: Items<Waiting>) -> Result<Vec<Waiting>, Items<Waiting>>
    ensures { MatchResult result
        (λ room. (room.items ≡ pending) × (vec_len room < vec_capacity room))
        (λ same. same ≡ pending) }
{
    let mut room = pending.into_vec();
    match room.reserve(1) {
        Ok(()) => Ok(room),
        Err(_) => Err(Items::from_vec(room)),
    }
}

/// The pending returns with one more in front, for which there is room.
pub fn put_first(room: Vec<Waiting>, first: Waiting) -> Items<Waiting>
    requires { vec_len room < vec_capacity room }
    ensures { result ≡ first ∷ room.items }
{
    let mut pending = room;
    match pending.insert(0, first) {
        Ok(()) => {}
        Err(_) => unreachable!(),
    }
    Items::from_vec(pending)
}
