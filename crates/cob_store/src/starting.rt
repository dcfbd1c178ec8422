//! The store at the start of a run.

ghost use Rattle.std.specs.Prelude.{◌≡◌, ℕ, option_copied, slice_get};
ghost use Rattle.cob_base.specs.Answers.{Makes};
ghost use Rattle.cob_store.specs.Starting.{figure_byte, item_started, moved_by, number_in_clause, number_started, put_each, sets_bytes, start_bytes, started, store_of, text_started};
ghost use Rattle.cob_store.specs.Store.{put_at};

use crate::area::{Area, Areas, Dim, Form, Storage};
use crate::place::{kept, literal_value};
use crate::spot::Spot;
use crate::store::Store;
use cob_base::NoMemory;
use cob_num::Dec;
use cob_tree::{Entry, Figure, Operand};
use std::alloc::Global;

/// The byte that a figure repeats.
pub fn figure_byte(figure: Figure) -> u8
    ensures { result ≡ figure_byte figure }
{
    match figure {
        Figure::Zero => b'0',
        Figure::Space => b' ',
        Figure::HighValue => 255,
        Figure::LowValue => 0,
        Figure::Quote => b'"',
    }
}

/// What an item starts with.
#[derive(Clone, Copy)]
pub enum Start<'a> {
    Number {
        signed: bool,
        storage: Storage,
        minus: bool,
        number: u128,
    },
    Text(&'a [u8]),
    Filler(u8),
}

// The number of a VALUE clause.
fn number_in_clause(clause: &Option<Operand>) -> Option<Dec>
    ensures { result ≡ number_in_clause clause.now }
{
    match clause {
        Some(Operand::Number(number)) => literal_value(number),
        _ => None,
    }
}

// What any item but a number starts with.
fn text_started(clause: &Option<Operand>) -> Start<'_>
    ensures { (size : ℕ) → start_bytes size result ≡ text_started size clause.now }
{
    match clause {
        None => Start::Filler(b' '),
        Some(operand) => match operand {
            Operand::Text(text) => Start::Text(text.as_slice()),
            Operand::Figure(figure) => Start::Filler(figure_byte(*figure)),
            Operand::Place(_) => Start::Filler(b' '),
            Operand::Number(_) => Start::Filler(b' '),
        },
    }
}

fn number_started(
    signed: bool,
    whole: u8,
    part: u8,
    storage: Storage,
    clause: &Option<Operand>,
) -> Start<'_>
    ensures { (size : ℕ) → start_bytes size result
        ≡ number_started signed whole part storage size (number_in_clause clause.now) }
{
    let zero = Start::Number {
        signed,
        storage,
        minus: false,
        number: 0,
    };
    let Some(number) = number_in_clause(clause) else {
        return zero;
    };
    match kept(number, whole, part, false) {
        None => zero,
        Some(stored) => Start::Number {
            signed,
            storage,
            minus: stored.value < 0,
            number: stored.value.unsigned_abs(),
        },
    }
}

fn started(form: Form, clause: &Option<Operand>) -> Start<'_>
    ensures { (size : ℕ) → start_bytes size result ≡ started form size clause.now }
{
    match form {
        Form::Number {
            signed,
            whole,
            part,
            storage,
        } => number_started(signed, whole, part, storage, clause),
        Form::Group => text_started(clause),
        Form::Edited => text_started(clause),
        Form::Text => text_started(clause),
    }
}

fn put_start(store: &mut Store, spot: Spot, start: Start)
    ensures { store.new ≡ put_at store.old spot (start_bytes spot.length start.entry) }
{
    match start {
        Start::Number {
            signed,
            storage,
            minus,
            number,
        } => store.put_number(spot, signed, storage, minus, number),
        Start::Text(bytes) => store.put_bytes(spot, bytes),
        Start::Filler(byte) => store.put_filler(spot, byte),
    }
}

fn moved_by(spot: Spot, bytes: u32) -> Spot
    ensures { result ≡ moved_by spot bytes }
{
    Spot {
        root: spot.root,
        start: spot.start.saturating_add(bytes),
        length: spot.length,
    }
}

// Puts what an item starts with into each of its occurrences.
fn put_each(store: &mut Store, dims: &[Dim], spot: Spot, start: Start)
    ensures { store.new ≡ put_each dims.now spot (start_bytes spot.length start.entry) store.old }
{
    let Some((dim, inner)) = dims.split_first() else {
        put_start(store, spot, start);
        return;
    };
    for number in 0..dim.count {
        put_each(
            store,
            inner,
            moved_by(spot, number.saturating_mul(dim.stride)),
            start,
        );
    }
}

fn sets_bytes(entry: &Entry) -> bool
    ensures { result ≡ sets_bytes entry.now }
{
    entry.level != 88 && (entry.picture.is_some() || entry.value.is_some())
}

fn start_item(store: &mut Store, entry: &Entry, area: &Area)
    ensures { store.new ≡ item_started entry.now area.now store.old }
{
    if sets_bytes(entry) {
        let spot = Spot {
            root: area.root,
            start: area.start,
            length: area.size,
        };
        put_each(
            store,
            area.dims.as_slice(),
            spot,
            started(area.form, &entry.value),
        );
    }
}

/// The store at the start of a run, by VALUE clauses and pictures. Where several items share a
/// byte, the first of them sets it, so the last is put first.
pub fn initial(alloc: Global, entries: &[Entry], areas: &Areas) -> Result<Store, NoMemory>
    ensures { Makes (store_of entries.now areas.now) result }
{
    let mut store = Store::blank(alloc, areas.roots.as_slice())?;
    let mut at = entries.len();
    while at > 0 {
        at -= 1;
        if let Some(area) = area_of(areas.items.as_slice(), at) {
            start_item(&mut store, &entries[at], area);
        }
    }
    Ok(store)
}

fn area_of(areas: &[Area], at: usize) -> Option<&Area>
    ensures { option_copied result ≡ slice_get areas.now at }
{
    areas.get(at)
}
