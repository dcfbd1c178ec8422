//! What may turn out to be subscripts or the sum of a window, as far as it is read.

ghost use Rattle.std.specs.Prelude.{◌≡◌, Option, None, [], ◌∷◌, ◌++◌};
ghost use Rattle.cob_base.specs.Answers.{Makes};
ghost use Rattle.cobol_grammar.specs.expr_forms.Either as eithers;
ghost use Rattle.cobol_grammar.specs.expr_forms.Fault.{number_fault};

use crate::actions::chain::{chain_of, joined};
use crate::actions::drops::{drop_chain, drop_place, drop_subs};
use crate::actions::fault::{kind_of, last_fault, whole_fault_at};
use crate::actions::side::{digits_side, number_of, place_of, ref_side};
use cob_base::{Boxed, Copied, Items, NoMemory, Text, Word};
use cob_tree::{Op, Place, Sub};
use cobol_grammar::expr_forms::MaybeSubscripts;
use parser_combinators::{Note, Position};
use std::alloc::Global;
use symbol_tables::data_names::Referent;

/// The list with one more element; it is dropped where there is no memory.
///
/// It is generic, so that the drop of the list is checked without the drops of the types in it.
fn pushed<T: Drop>(mut items: Items<T>, item: T) -> Result<Items<T>, NoMemory>
    ensures { Makes (items ++ item ∷ []) result }
{
    match items.push(item) {
        Ok(()) => Ok(items),
        Err(fault) => {
            drop(items);
            Err(fault)
        }
    }
}

/// The subscripts with one more.
pub fn sub_added(subs: Items<Sub>, sub: Sub) -> Result<Items<Sub>, NoMemory>
    ensures { Makes (subs ++ sub ∷ []) result }
{
    pushed(subs, sub)
}

/// A number as a subscript.
pub fn number_sub(digits: Text) -> Sub
    ensures { result ≡ eithers.number_sub digits }
{
    Sub {
        base: None,
        plus: number_of(false, digits),
    }
}

/// An item and a number as a subscript.
pub fn item_sub(alloc: Global, place: Place, negative: bool, digits: Text) -> Result<Sub, NoMemory>
    ensures { Makes (eithers.item_sub place negative digits) result }
{
    let place = Boxed::new(alloc, place)?;
    Ok(Sub {
        base: Some(place),
        plus: number_of(negative, digits),
    })
}

/// The item alone as a subscript.
pub fn bare_sub(alloc: Global, place: Place) -> Result<Sub, NoMemory>
    ensures { Makes (eithers.bare_sub place) result }
{
    let mut zero = Text::new(alloc);
    match zero.add(b"0") {
        Ok(()) => item_sub(alloc, place, false, zero),
        Err(fault) => {
            drop_place(place);
            Err(fault)
        }
    }
}

/// A number that may be a subscript or begin a sum.
pub fn number_either(
    alloc: Global,
    digits: Text,
    position: Position,
) -> Result<MaybeSubscripts, NoMemory>
    ensures { Makes (eithers.number_either digits position) result }
{
    let copy = digits.copy(alloc)?;
    let subs = sub_added(Items::new(alloc), number_sub(copy))?;
    Ok(MaybeSubscripts {
        subs,
        base: None,
        chain: chain_of(digits_side(digits, position)),
        leaves: 1,
        fault: None,
    })
}

/// An item that may be a subscript or begin a sum.
pub fn ref_either(
    alloc: Global,
    found: Referent,
    of: Items<Word>,
    position: Position,
) -> Result<MaybeSubscripts, NoMemory>
    ensures { Makes (eithers.ref_either found of position) result }
{
    let again = of.copy(alloc)?;
    let base = place_of(found, again, Items::new(alloc), None);
    let side = ref_side(found, of, Items::new(alloc), None, position);
    Ok(MaybeSubscripts {
        subs: Items::new(alloc),
        base: Some(base),
        chain: chain_of(side),
        leaves: 1,
        fault: whole_fault_at(position, kind_of(found)),
    })
}

fn added_sub(
    alloc: Global,
    base: Option<Place>,
    negative: bool,
    digits: Text,
) -> Result<Sub, NoMemory>
    ensures { Makes (eithers.added_sub base negative digits) result }
{
    match base {
        None => Ok(number_sub(digits)),
        Some(place) => item_sub(alloc, place, negative, digits),
    }
}

fn subs_added(
    alloc: Global,
    subs: Items<Sub>,
    base: Option<Place>,
    negative: bool,
    digits: Text,
) -> Result<Items<Sub>, NoMemory>
    ensures { Makes (subs ++ eithers.added_sub base negative digits ∷ []) result }
{
    match added_sub(alloc, base, negative, digits) {
        Ok(sub) => sub_added(subs, sub),
        Err(fault) => {
            drop_subs(subs);
            Err(fault)
        }
    }
}

/// What it is with one more number after `+` or `-`.
#[tactic(auto, unfolding(cobol_grammar::specs::expr_forms::Either::with_number))]
pub fn with_number(
    alloc: Global,
    op: Op,
    negative: bool,
    digits: Text,
    position: Position,
    either: MaybeSubscripts,
) -> Result<MaybeSubscripts, NoMemory>
    ensures { Makes (eithers.with_number op negative digits position either) result }
{
    let MaybeSubscripts {
        subs,
        base,
        chain,
        leaves,
        fault,
    } = either;
    let copy = match digits.copy(alloc) {
        Ok(copy) => copy,
        Err(stop) => {
            drop_subs(subs);
            drop(base);
            drop_chain(chain);
            return Err(stop);
        }
    };
    let subs = match subs_added(alloc, subs, base, negative, copy) {
        Ok(subs) => subs,
        Err(stop) => {
            drop_chain(chain);
            return Err(stop);
        }
    };
    match joined(alloc, op, chain, digits_side(digits, position)) {
        Ok(chain) => Ok(MaybeSubscripts {
            subs,
            base: None,
            chain,
            leaves: leaves.saturating_add(1),
            fault,
        }),
        Err(stop) => {
            drop_subs(subs);
            Err(stop)
        }
    }
}

/// The subscripts that it spells.
#[tactic(auto, unfolding(cobol_grammar::specs::expr_forms::Either::subs_of))]
pub fn subs_of(alloc: Global, either: MaybeSubscripts) -> Result<Items<Sub>, NoMemory>
    ensures { Makes (eithers.subs_of either) result }
{
    let MaybeSubscripts {
        subs,
        base,
        chain,
        ..
    } = either;
    drop_chain(chain);
    match base {
        None => Ok(subs),
        Some(place) => match bare_sub(alloc, place) {
            Ok(sub) => sub_added(subs, sub),
            Err(fault) => {
                drop_subs(subs);
                Err(fault)
            }
        },
    }
}

/// The fault of the last operand of the sum that it spells, where that operand has an operator.
pub fn either_fault(either: &MaybeSubscripts) -> Option<Note>
    ensures { result ≡ number_fault either.now.chain.last }
{
    last_fault(&either.chain)
}
