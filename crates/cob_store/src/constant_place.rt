//! Places whose subscripts and window are numbers alone, with their spots.
//!
//! The spot of such a place is the same throughout a run. So it is kept with the item's OCCURS
//! clauses, under the numbers of its subscripts and window.

ghost use Rattle.std.specs.Prelude.{◌≡◌, All, IfSome, IsTrue, OnOk};
ghost use Rattle.cob_store.specs.ConstantPlace.{IsKnown, IsOf, KnownOf, are_subs, expr_number, is_length, is_part, is_that, is_window, number_alone, sub_number};

use crate::area::Dim;
use crate::spot::Spot;
use cob_base::{Boxed, Items, NoMemory};
use cob_tree::{Expr, Number, Operand, Place, Sub, Window};
use smallvec::SmallVec;
use std::alloc::Global;
use std::marker::Model;

/// The numbers of a window: the first character, and the length where it has one.
#[derive(Clone, Copy, Debug, PartialEq, Eq)]
pub struct WindowNumbers {
    pub from: u64,
    pub length: Option<u64>,
}

/// A place of numbers alone, and its spot.
#[derive(Debug, Drop)]
pub struct ConstantPlace {
    /// The whole of the item's first occurrence.
    pub whole: Spot,
    pub subs: SmallVec<u64, 3>,
    pub part: Option<WindowNumbers>,
    pub spot: Spot,
}

/// The OCCURS clauses that apply to an item, the outermost first, with places of the item whose
/// spots are known. Contracts see the clauses alone.
#[derive(Debug, Drop)]
pub struct Dims {
    dims: Items<Dim>,
    known: Items<ConstantPlace>,
}

impl Model for Dims {
    ghost use Rattle.std.specs.Prelude.{List, All};
    ghost use Rattle.cob_store.specs.declared.area.Dim.{Dim};

    ghost Value = { List Dim };

    ghost use Rattle.cob_store.specs.ConstantPlace.{IsKnown};

    ghost view = { λ d. d.dims };

    ghost invariant = { λ d. All (IsKnown d.dims) d.known };
}

impl Dims {
    /// These OCCURS clauses, without a known place.
    pub fn new(alloc: Global, dims: Items<Dim>) -> Dims
        ensures { result ≡ dims }
    {
        Dims {
            dims,
            known: Items::new(alloc),
        }
    }

    /// The OCCURS clauses, the outermost first.
    pub fn as_slice(&self) -> &[Dim]
        ensures { result.now ≡ self.now }
    {
        self.dims.as_slice()
    }

    /// The places of the item whose spots are known.
    pub fn known(&self) -> &[ConstantPlace]
        ensures { All (IsKnown self.now) result.now }
    {
        self.known.as_slice()
    }

    /// Keeps a place whose spot is known.
    pub fn keep(&mut self, known: ConstantPlace) -> Result<(), NoMemory>
        requires { IsKnown self.old known }
        ensures { self.new ≡ self.old }
    {
        self.known.push(known)
    }
}

// A number without sign and decimal places.
fn number_alone(number: &Number) -> Option<u64>
    ensures { result ≡ number_alone number.now }
{
    if number.negative || number.scale != 0 {
        None
    } else {
        number.digits.number()
    }
}

/// The number of a subscript that is a number alone.
pub fn sub_number(sub: &Sub) -> Option<u64>
    ensures { result ≡ sub_number sub.now }
{
    match &sub.base {
        None => number_alone(&sub.plus),
        Some(_) => None,
    }
}

/// The number of an expression that is a number alone.
pub fn expr_number(expr: &Expr) -> Option<u64>
    ensures { result ≡ expr_number expr.now }
{
    match expr {
        Expr::Leaf(Operand::Number(number)) => number_alone(number),
        _ => None,
    }
}

fn is_that(number: Option<u64>, wanted: u64) -> bool
    ensures { result ≡ is_that number wanted }
{
    match number {
        None => false,
        Some(value) => value == wanted,
    }
}

fn are_subs(subs: &[Sub], numbers: &[u64]) -> bool
    ensures { result ≡ are_subs subs.now numbers.now }
{
    let mut left = numbers;
    for sub in subs {
        let Some((number, others)) = left.split_first() else {
            return false;
        };
        if !is_that(sub_number(sub), *number) {
            return false;
        }
        left = others;
    }
    left.is_empty()
}

fn is_length(length: &Option<Expr>, wanted: Option<u64>) -> bool
    ensures { result ≡ is_length length.now wanted }
{
    match (length, wanted) {
        (None, None) => true,
        (Some(length), Some(wanted)) => is_that(expr_number(length), wanted),
        _ => false,
    }
}

fn is_window(window: &Window, part: WindowNumbers) -> bool
    ensures { result ≡ is_window window.now part }
{
    is_that(expr_number(&window.from), part.from) && is_length(&window.length, part.length)
}

fn is_part(window: &Option<Boxed<Window>>, part: Option<WindowNumbers>) -> bool
    ensures { result ≡ is_part window.now part }
{
    match (window, part) {
        (None, None) => true,
        (Some(window), Some(part)) => is_window(window.get(), part),
        _ => false,
    }
}

fn same_spot(a: Spot, b: Spot) -> bool
    ensures { IsTrue result → a ≡ b }
{
    a.start == b.start && a.length == b.length && a.root == b.root
}

/// Whether it is this place, of the item that is at `whole`.
pub fn is_of(known: &ConstantPlace, whole: Spot, place: &Place) -> bool
    ensures { IsTrue result → IsOf known.now whole place.now }
{
    are_subs(place.subs.as_slice(), known.subs.as_slice())
        && is_part(&place.window, known.part)
        && same_spot(known.whole, whole)
}

/// The spot of a place, where it is known.
pub fn known_spot(dims: &Dims, whole: Spot, place: &Place) -> Option<Spot>
    ensures { IfSome result (λ spot. KnownOf dims.now whole place.now spot) }
{
    for known in dims.known() {
        if is_of(known, whole, place) {
            return Some(known.spot);
        }
    }
    None
}
