//! The store.

ghost use Rattle.std.specs.Prelude.{◌≡◌, ◌+◌, ◌≤◌, length, replicate, take, drop, ◌<◌, ◌^◌, unsigned_abs, IfSome};
ghost use Rattle.cob_base.specs.Answers.{Makes};
ghost use Rattle.cob_store.specs.Number.{signed_bytes};
ghost use Rattle.cob_store.specs.Place.{memory_of, reach_of};
ghost use Rattle.cob_store.specs.Starting.{store_of};
ghost use Rattle.cob_num.specs.Exact.{decimal};
ghost use Rattle.edit_fields.specs.Field.{digits_of};
ghost use Rattle.cob_store.specs.Store.{blank, edited_bytes, fitted, form_with, is_inside, number_of, put_at, replaced, shown_at, spot_bytes, stored_at, stored_by, value_at};

use crate::area::{Areas, Form, Storage};
use crate::number::{digit_count, number_in, put_signed, storage_of};
use crate::place::reached;
use crate::spot::Spot;
use crate::starting::initial;
use cob_base::{NoMemory, Text};
use cob_num::{Dec, Stored};
use cob_tree::{Abend, Entry, Picture, Place, Sign, Usage};
use edit_fields::Mask;
use std::alloc::Global;
use std::marker::Model;

/// The bytes of each root.
#[derive(Debug, Drop)]
pub struct Store {
    roots: Vec<Text>,
}

impl Model for Store {
    ghost use Rattle.std.specs.Prelude.{List, ℕ};

    ghost Value = { List (List ℕ) };

    ghost view = { λ s. s.roots.items };
}

// So many bytes from a place on, as far as there are any.
fn part(bytes: &[u8], start: usize, size: usize) -> &[u8]
    ensures { result.now ≡ take size (drop start bytes.now) }
{
    let behind = &bytes[start.min(bytes.len())..];
    &behind[..size.min(behind.len())]
}

// Puts bytes from the left, cut, or padded with spaces.
fn fit(into: &mut [u8], bytes: &[u8])
    ensures { into.new ≡ fitted (length into.old) bytes.now }
{
    let size = bytes.len().min(into.len());
    into[..size].copy_from_slice(&bytes[..size]);
    into[size..].fill(b' ');
}

fn fit_at(root: &mut [u8], start: usize, size: usize, bytes: &[u8])
    requires { start + size ≤ length root.old }
    ensures { root.new ≡ replaced root.old start size (fitted size bytes.now) }
{
    fit(&mut root[start..start + size], bytes);
}

fn fill_at(root: &mut [u8], start: usize, size: usize, byte: u8)
    requires { start + size ≤ length root.old }
    ensures { root.new ≡ replaced root.old start size (replicate size byte) }
{
    root[start..start + size].fill(byte);
}

fn put_number_at(
    root: &mut [u8],
    start: usize,
    size: usize,
    signed: bool,
    storage: Storage,
    minus: bool,
    number: u128,
)
    requires { start + size ≤ length root.old }
    ensures { root.new
        ≡ replaced root.old start size (signed_bytes signed storage size minus number) }
{
    put_signed(
        &mut root[start..start + size],
        signed,
        storage,
        minus,
        number,
    );
}

// Puts what a number shows through a mask, cut or padded with spaces where the place isn't of the
// mask's size.
fn put_shown(into: &mut [u8], mask: &Mask, number: Dec)
    ensures { into.new ≡ edited_bytes mask.now (length into.old) number }
{
    let size = mask.size() as usize;
    if size == into.len() {
        mask.edit(number, into);
    } else {
        let mut bytes = [0u8; 160];
        let shown = &mut bytes[..size];
        mask.edit(number, shown);
        fit(into, shown);
    }
}

fn put_shown_at(root: &mut [u8], start: usize, size: usize, mask: &Mask, number: Dec)
    requires { start + size ≤ length root.old }
    ensures { root.new ≡ replaced root.old start size (edited_bytes mask.now size number) }
{
    put_shown(&mut root[start..start + size], mask, number);
}

/// The number with so many decimal places, or BadDigits where there is none.
pub fn number_of(number: Option<i128>, places: u8) -> Result<Dec, Abend>
    requires { IfSome number (λ z. unsigned_abs z < 2 ^ 64) }
    ensures { result ≡ number_of number places }
{
    match number {
        None => Err(Abend::BadDigits),
        Some(number) => match Dec::new(number, places) {
            None => Err(Abend::BadDigits),
            Some(number) => Ok(number),
        },
    }
}

/// The form of an item by its picture, SIGN and USAGE clauses.
pub fn form_with(picture: &Picture, sign: Sign, usage: Usage) -> Form
    ensures { result ≡ form_with picture.now sign usage }
{
    match picture {
        Picture::Number {
            signed,
            whole,
            part,
        } => Form::Number {
            signed: *signed,
            whole: *whole,
            part: *part,
            storage: storage_of(sign, usage, digit_count(*whole, *part)),
        },
        Picture::Letters(_) => Form::Text,
        Picture::Any(_) => Form::Text,
        Picture::Edited(_) => Form::Edited,
    }
}

// The number that was stored for an item with this mask.
fn shown_number(stored: Stored, mask: &Mask) -> Option<Dec>
    ensures { result ≡ decimal stored.value (digits_of mask.now).part }
{
    Dec::new(stored.value, mask.digits().part)
}

fn spaces(alloc: Global, size: u32) -> Result<Text, NoMemory>
    ensures { Makes (replicate size 32) result }
{
    let bytes = vec![in alloc; b' '; size as usize]?;
    Ok(Text { bytes })
}

impl Store {
    /// Roots of these sizes, all spaces.
    pub fn blank(alloc: Global, sizes: &[u32]) -> Result<Store, NoMemory>
        ensures { Makes (blank sizes.now) result }
    {
        let mut roots = Vec::with_capacity(alloc, sizes.len())?;
        for size in sizes {
            roots.push(spaces(alloc, *size)?)?;
        }
        Ok(Store { roots })
    }

    /// The bytes at a spot, as far as the root has them.
    pub fn bytes(&self, spot: Spot) -> &[u8]
        ensures { result.now ≡ spot_bytes self.now spot }
    {
        match self.roots.get(spot.root as usize) {
            None => &[],
            Some(root) => part(root.as_slice(), spot.start as usize, spot.length as usize),
        }
    }

    fn is_inside(&self, spot: Spot) -> bool
        ensures { result ≡ is_inside self.now spot }
    {
        match self.roots.get(spot.root as usize) {
            None => spot.start == 0 && spot.length == 0,
            Some(root) => spot.start as usize + spot.length as usize <= root.len(),
        }
    }

    /// Puts bytes at a spot, cut or padded with spaces.
    pub fn put_bytes(&mut self, spot: Spot, bytes: &[u8])
        ensures { self.new ≡ put_at self.old spot (fitted spot.length bytes.now) }
    {
        let at = spot.root as usize;
        if self.is_inside(spot) && at < self.roots.len() {
            let root = &mut self.roots[at];
            fit_at(
                &mut root.bytes,
                spot.start as usize,
                spot.length as usize,
                bytes,
            );
        }
    }

    /// Fills a spot with one byte.
    pub fn put_filler(&mut self, spot: Spot, byte: u8)
        ensures { self.new ≡ put_at self.old spot (replicate spot.length byte) }
    {
        let at = spot.root as usize;
        if self.is_inside(spot) && at < self.roots.len() {
            let root = &mut self.roots[at];
            fill_at(
                &mut root.bytes,
                spot.start as usize,
                spot.length as usize,
                byte,
            );
        }
    }

    /// Puts a number at a spot, negative where `minus` says so, as an item of this kind stores it.
    pub fn put_number(
        &mut self,
        spot: Spot,
        signed: bool,
        storage: Storage,
        minus: bool,
        number: u128,
    )
        ensures { self.new ≡ put_at self.old spot
            (signed_bytes signed storage spot.length minus number) }
    {
        let at = spot.root as usize;
        if self.is_inside(spot) && at < self.roots.len() {
            let root = &mut self.roots[at];
            put_number_at(
                &mut root.bytes,
                spot.start as usize,
                spot.length as usize,
                signed,
                storage,
                minus,
                number,
            );
        }
    }

    /// Puts what a number shows through a mask at a spot.
    pub fn put_edited(&mut self, spot: Spot, mask: &Mask, number: Dec)
        ensures { self.new ≡ put_at self.old spot (edited_bytes mask.now spot.length number) }
    {
        let at = spot.root as usize;
        if self.is_inside(spot) && at < self.roots.len() {
            let root = &mut self.roots[at];
            put_shown_at(
                &mut root.bytes,
                spot.start as usize,
                spot.length as usize,
                mask,
                number,
            );
        }
    }

    /// The number at a spot of that form; BadDigits where its bytes are none of such a number.
    pub fn value(&self, spot: Spot, form: Form) -> Result<Dec, Abend>
        ensures { result ≡ value_at self.now spot form }
    {
        match form {
            Form::Number {
                signed,
                part,
                storage,
                ..
            } => number_of(number_in(signed, storage, self.bytes(spot)), part),
            Form::Group => Err(Abend::BadDigits),
            Form::Edited => Err(Abend::BadDigits),
            Form::Text => Err(Abend::BadDigits),
        }
    }

    /// The number at a spot of that picture, sign and usage; BadDigits where its bytes are none of
    /// such a number.
    pub fn get(&self, spot: Spot, picture: &Picture, sign: Sign, usage: Usage) -> Result<Dec, Abend>
        ensures { result ≡ value_at self.now spot (form_with picture.now sign usage) }
    {
        self.value(spot, form_with(picture, sign, usage))
    }

    // Puts a number that was cut for storing, as an item of this form stores it.
    fn put_stored(&mut self, spot: Spot, form: Form, stored: Stored)
        ensures { self.new ≡ stored_at self.old spot form stored }
    {
        let minus = stored.value < 0;
        let number = stored.value.unsigned_abs();
        match form {
            Form::Number {
                signed,
                storage,
                ..
            } => self.put_number(spot, signed, storage, minus, number),
            Form::Group => {}
            Form::Edited => {}
            Form::Text => {}
        }
    }

    // Puts what a number shows through a mask, where there is one.
    fn put_shown(&mut self, spot: Spot, mask: &Mask, number: Option<Dec>)
        ensures { self.new ≡ shown_at self.old spot mask.now number }
    {
        match number {
            None => {}
            Some(number) => self.put_edited(spot, mask, number),
        }
    }

    /// Puts a number that was cut for storing, as an item of that picture, sign and usage stores or
    /// shows it.
    pub fn put(&mut self, spot: Spot, picture: &Picture, sign: Sign, stored: Stored, usage: Usage)
        ensures { self.new ≡ stored_by self.old spot picture.now sign usage stored }
    {
        match picture {
            Picture::Edited(mask) => self.put_shown(spot, mask, shown_number(stored, mask)),
            _ => self.put_stored(spot, form_with(picture, sign, usage), stored),
        }
    }

    /// The spot of a place, or the first fault on the way there: its subscripts from the left, each
    /// read and then checked, then the start of its window, then its length. Everything that is
    /// needed of the entries is in the areas.
    pub fn reach(&self, areas: &Areas, _entries: &[Entry], place: &Place) -> Result<Spot, Abend>
        ensures { result ≡ reach_of (memory_of areas.now.items self.now) place.now }
    {
        let place = reached(areas.items.as_slice(), self, place)?;
        Ok(place.spot)
    }

    /// The store at the start of a run: each item has its VALUE, or a value by its picture.
    pub fn initial(alloc: Global, areas: &Areas, entries: &[Entry]) -> Result<Store, NoMemory>
        ensures { Makes (store_of entries.now areas.now) result }
    {
        initial(alloc, entries, areas)
    }

    /// The allocator of the roots.
    pub fn allocator(&self) -> Global {
        *self.roots.allocator()
    }
}
