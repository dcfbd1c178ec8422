//! MOVE and SET.

ghost use Rattle.std.specs.Prelude.{◌≡◌, ◌-◌, IfErr, IfOk, length, option_copied};
ghost use Rattle.cob_tree.specs.declared.place.Place.{out-Place};
ghost use Rattle.cob_store.specs.Area.{mask_at};
ghost use Rattle.cob_store.specs.Store.{fitted, put_at};
ghost use Rattle.cob_store.specs.Place.{reached};
ghost use Rattle.meanings.specs.statements.Moving.{all_groups, moved, form_of, is_group, digits_of, none_is_bad, edited_received, figure_edited, number_edited, number_received, put_answer, receive, received, sender_bytes, sender_edited, sender_number, sender_text, sent, set, text_number};
ghost use Rattle.meanings.specs.statements.Outcome.{each};
ghost use Rattle.cob_act.specs.Moving.{outcome_of, seen_sender, seen_sent};

use crate::condition::spans_at;
use cob_base::NoMemory;
use cob_num::Dec;
use cob_store::{
    Area, Form, Spot, Storage, Store, area_at, figure_byte, kept, literal_value, mask_at,
    number_in, number_of, put_digits, reached,
};
use cob_tree::{Abend, Entry, Figure, Number, Operand, Place, Sign};
use edit_fields::Mask;
use std::slice::from_ref;

/// A sender as it was read.
#[derive(Clone, Copy)]
pub enum Sender<'a> {
    Figured(Figure),
    Grouped(&'a [u8]),
    Spelled(&'a [u8]),
    Written(&'a Number),
    /// A number item, with its number where one of the receivers isn't a group.
    Counted {
        bytes: &'a [u8],
        digits: u16,
        number: Option<Dec>,
    },
}

fn is_group(form: Form) -> bool
    ensures { result ≡ is_group form }
{
    match form {
        Form::Group => true,
        _ => false,
    }
}

/// The form that a place has, whatever its subscripts.
fn form_of(areas: &[Area], place: &Place) -> Form
    ensures { result ≡ form_of areas.now place.now }
{
    let windowed = place.window.is_some();
    match area_at(areas, place.item) {
        None => Form::Text,
        Some(area) => if windowed { Form::Text } else { area.form },
    }
}

fn all_groups(areas: &[Area], places: &[Place]) -> bool
    ensures { result ≡ all_groups areas.now places.now }
{
    places.iter().all(|place| is_group(form_of(areas, place)))
}

fn sent<'a>(asked: bool, form: Form, bytes: &'a [u8]) -> Result<Sender<'a>, Abend>
    ensures { seen_sent result ≡ sent asked form bytes.now }
{
    match form {
        Form::Group => Ok(Sender::Grouped(bytes)),
        Form::Edited => Ok(Sender::Spelled(bytes)),
        Form::Text => Ok(Sender::Spelled(bytes)),
        Form::Number {
            signed,
            whole,
            part,
            storage,
        } => {
            let digits = u16::from(whole) + u16::from(part);
            if !asked {
                return Ok(Sender::Counted {
                    bytes,
                    digits,
                    number: None,
                });
            }
            let number = number_of(number_in(signed, storage, bytes), part)?;
            Ok(Sender::Counted {
                bytes,
                digits,
                number: Some(number),
            })
        }
    }
}

// The last 18 bytes of a text, as an unsigned integer.
fn text_number(bytes: &[u8]) -> Result<Dec, Abend>
    ensures { result ≡ text_number bytes.now }
{
    let last = &bytes[bytes.len().saturating_sub(18)..];
    number_of(number_in(false, Storage::Digits(Sign::Within), last), 0)
}

fn none_is_bad(value: Option<Dec>) -> Result<Dec, Abend>
    ensures { result ≡ none_is_bad value }
{
    match value {
        None => Err(Abend::BadDigits),
        Some(number) => Ok(number),
    }
}

fn sender_number(sender: Sender) -> Result<Dec, Abend>
    ensures { result ≡ sender_number (seen_sender sender.entry) }
{
    match sender {
        Sender::Figured(_) => none_is_bad(Dec::new(0, 0)),
        Sender::Grouped(bytes) => text_number(bytes),
        Sender::Spelled(bytes) => text_number(bytes),
        Sender::Written(number) => none_is_bad(literal_value(number)),
        Sender::Counted { number, .. } => none_is_bad(number),
    }
}

// Puts the digits of an integer, without its sign.
fn put_integer(store: &mut Store, spot: Spot, digits: u16, number: Option<Dec>)
    ensures { store.new ≡ put_at store.old spot (fitted spot.length (digits_of digits number)) }
{
    let mut buffer = [0u8; 18];
    let Some(number) = number else {
        store.put_bytes(spot, &[]);
        return;
    };
    let size = usize::from(digits);
    if size <= 18 {
        put_digits(&mut buffer[..size], number.value.unsigned_abs());
        store.put_bytes(spot, &buffer[..size]);
    } else {
        store.put_bytes(spot, &[]);
    }
}

fn put_text(store: &mut Store, spot: Spot, sender: Sender)
    ensures { store.new
        ≡ put_at store.old spot (sender_text spot.length (seen_sender sender.entry)) }
{
    match sender {
        Sender::Figured(figure) => store.put_filler(spot, figure_byte(figure)),
        Sender::Grouped(bytes) => store.put_bytes(spot, bytes),
        Sender::Spelled(bytes) => store.put_bytes(spot, bytes),
        Sender::Written(number) => store.put_bytes(spot, number.digits.as_slice()),
        Sender::Counted { digits, number, .. } => put_integer(store, spot, digits, number),
    }
}

// Puts what a group gets: the bytes of the sender, whatever its form.
fn put_bytes(store: &mut Store, spot: Spot, sender: Sender)
    ensures { store.new
        ≡ put_at store.old spot (sender_bytes spot.length (seen_sender sender.entry)) }
{
    match sender {
        Sender::Figured(figure) => store.put_filler(spot, figure_byte(figure)),
        Sender::Grouped(bytes) => store.put_bytes(spot, bytes),
        Sender::Spelled(bytes) => store.put_bytes(spot, bytes),
        Sender::Written(number) => store.put_bytes(spot, number.digits.as_slice()),
        Sender::Counted { bytes, .. } => store.put_bytes(spot, bytes),
    }
}

fn put_received(
    store: &mut Store,
    spot: Spot,
    number: Dec,
    signed: bool,
    whole: u8,
    part: u8,
    storage: Storage,
) -> Result<(), Abend>
    ensures { outcome_of store.new result
        ≡ put_answer store.old spot
        (number_received signed whole part storage spot.length number) }
{
    match kept(number, whole, part, false) {
        None => Err(Abend::BadDigits),
        Some(stored) => {
            store.put_number(
                spot,
                signed,
                storage,
                stored.value < 0,
                stored.value.unsigned_abs(),
            );
            Ok(())
        }
    }
}

fn put_edited_number(
    store: &mut Store,
    spot: Spot,
    mask: &Mask,
    number: Result<Dec, Abend>,
) -> Result<(), Abend>
    ensures { outcome_of store.new result
        ≡ put_answer store.old spot (number_edited mask.now spot.length number) }
{
    let number = number?;
    store.put_edited(spot, mask, number);
    Ok(())
}

// ZERO is edited as a number; any other figure fills the item.
fn put_edited_figure(
    store: &mut Store,
    spot: Spot,
    mask: &Mask,
    figure: Figure,
) -> Result<(), Abend>
    ensures { outcome_of store.new result
        ≡ put_answer store.old spot (figure_edited mask.now spot.length figure) }
{
    match figure {
        Figure::Zero => put_edited_number(store, spot, mask, none_is_bad(Dec::new(0, 0))),
        _ => {
            store.put_filler(spot, figure_byte(figure));
            Ok(())
        }
    }
}

fn put_edited(store: &mut Store, spot: Spot, mask: &Mask, sender: Sender) -> Result<(), Abend>
    ensures { outcome_of store.new result ≡ put_answer store.old spot
        (sender_edited mask.now spot.length (seen_sender sender.entry)) }
{
    match sender {
        Sender::Grouped(bytes) => {
            store.put_bytes(spot, bytes);
            Ok(())
        }
        Sender::Figured(figure) => put_edited_figure(store, spot, mask, figure),
        _ => put_edited_number(store, spot, mask, sender_number(sender)),
    }
}

// Puts what an edited item gets.
fn put_masked(
    store: &mut Store,
    spot: Spot,
    mask: Option<&Mask>,
    sender: Sender,
) -> Result<(), Abend>
    ensures { outcome_of store.new result ≡ put_answer store.old spot
        (edited_received (option_copied mask.entry) spot.length (seen_sender sender.entry)) }
{
    match mask {
        None => {
            put_text(store, spot, sender);
            Ok(())
        }
        Some(mask) => put_edited(store, spot, mask, sender),
    }
}

// Puts what a receiver of that form gets, a place of that item. Its mask is asked for only where
// the item is edited.
fn put_sent(
    areas: &[Area],
    store: &mut Store,
    item: u32,
    spot: Spot,
    form: Form,
    sender: Sender,
) -> Result<(), Abend>
    ensures { outcome_of store.new result ≡ put_answer store.old spot
        (received (mask_at areas.now item) form spot.length (seen_sender sender.entry)) }
{
    match form {
        Form::Group => {
            put_bytes(store, spot, sender);
            Ok(())
        }
        Form::Edited => put_masked(store, spot, mask_at(areas, item), sender),
        Form::Text => {
            put_text(store, spot, sender);
            Ok(())
        }
        Form::Number {
            signed,
            whole,
            part,
            storage,
        } => match sender {
            Sender::Grouped(bytes) => {
                store.put_bytes(spot, bytes);
                Ok(())
            }
            _ => {
                let number = sender_number(sender)?;
                put_received(store, spot, number, signed, whole, part, storage)
            }
        },
    }
}

fn receive(areas: &[Area], store: &mut Store, sender: Sender, place: &Place) -> Result<(), Abend>
    ensures { outcome_of store.new result
        ≡ receive areas.now (seen_sender sender.entry) store.old (out-Place place.now).item
        (reached place.now) }
{
    let item = place.item;
    let place = reached(areas, store, place)?;
    put_sent(areas, store, item, place.spot, place.form, sender)
}

// Moves to each receiver, which is reached in the store that the ones before left.
fn receive_all(
    areas: &[Area],
    store: &mut Store,
    sender: Sender,
    places: &[Place],
) -> Result<(), Abend>
    ensures { outcome_of store.new result
        ≡ each (λ now place. receive areas.now (seen_sender sender.entry) now
        (out-Place place).item (reached place)) store.old places.now }
{
    for place in places {
        receive(areas, store, sender, place)?;
    }
    Ok(())
}

/// Does MOVE. The bytes of a sending item are kept in `scratch`, since a receiver may overlap them.
/// The inner error is why the run ends.
pub fn moved(
    areas: &[Area],
    store: &mut Store,
    scratch: &mut Vec<u8>,
    from: &Operand,
    to: &[Place],
) -> Result<Result<(), Abend>, NoMemory>
    ensures does { IfOk result (λ answer. outcome_of store.new answer
        ≡ moved areas.now from.now to.now store.old) }
    ensures kept { IfErr result (λ e. store.new ≡ store.old) }
{
    let asked = !all_groups(areas, to);
    match from {
        Operand::Place(place) => match reached(areas, store, place) {
            Err(abend) => Ok(Err(abend)),
            Ok(place) => {
                scratch.clear();
                scratch.extend_from_slice(store.bytes(place.spot))?;
                match sent(asked, place.form, scratch.as_slice()) {
                    Err(abend) => Ok(Err(abend)),
                    Ok(sender) => Ok(receive_all(areas, store, sender, to)),
                }
            }
        },
        Operand::Number(number) => Ok(receive_all(areas, store, Sender::Written(number), to)),
        Operand::Text(text) => Ok(receive_all(areas, store, Sender::Spelled(text.as_slice()), to)),
        Operand::Figure(figure) => Ok(receive_all(areas, store, Sender::Figured(*figure), to)),
    }
}

/// Does SET: moves the first value of a level 88 to its item. The inner error is why the run ends.
pub fn set(
    entries: &[Entry],
    areas: &[Area],
    store: &mut Store,
    scratch: &mut Vec<u8>,
    place: &Place,
) -> Result<Result<(), Abend>, NoMemory>
    ensures does { IfOk result (λ answer. outcome_of store.new answer
        ≡ set entries.now areas.now place.now store.old) }
    ensures kept { IfErr result (λ e. store.new ≡ store.old) }
{
    match spans_at(entries, place.item).split_first() {
        None => Ok(Ok(())),
        Some((span, _)) => moved(areas, store, scratch, &span.from, from_ref(place)),
    }
}
