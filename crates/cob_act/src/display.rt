//! DISPLAY.

ghost use Rattle.std.specs.Prelude.{◌≡◌, ◌++◌, IfOk, OnOk, [], Ok};
ghost use Rattle.cob_store.specs.Answer.{and_then};
ghost use Rattle.cob_store.specs.Place.{memory_of};
ghost use Rattle.meanings.specs.statements.Display.{digits_shown, displayed, number_shown, operand_shown, place_shown};
ghost use Rattle.meanings.specs.statements.Text.{pointed, printed_number};
ghost use Rattle.cob_act.specs.Display.{with_bytes};

use cob_base::{NoMemory, Text};
use cob_store::{Area, Form, Storage, Store, figure_byte, number_in, put_signed, reached};
use cob_tree::{Abend, Number, Operand, Sign};

fn add_pointed(into: &mut Text, scale: u8, digits: &[u8]) -> Result<(), NoMemory>
    ensures { OnOk result (into.new ≡ into.old ++ pointed scale digits.now) }
{
    if scale == 0 {
        return into.add(digits);
    }
    let (whole, part) = digits.split_at(digits.len().saturating_sub(scale as usize));
    into.add(whole)?;
    into.add(b".")?;
    into.add(part)
}

/// Adds a number, as DISPLAY prints it.
pub fn add_number(into: &mut Text, number: &Number) -> Result<(), NoMemory>
    ensures { OnOk result (into.new ≡ into.old ++ printed_number number.now) }
{
    if number.negative {
        into.add(b"-")?;
    }
    add_pointed(into, number.scale, number.digits.as_slice())
}

// Adds a number as an item has it that is stored in so many digits, the sign within the last.
fn add_digits(
    into: &mut Text,
    signed: bool,
    digits: u8,
    number: Option<i128>,
) -> Result<Result<(), Abend>, NoMemory>
    ensures { IfOk result (λ answer. with_bytes answer into.new
        ≡ and_then (digits_shown signed digits number) (λ more. Ok (into.old ++ more))) }
{
    let Some(number) = number else {
        return Ok(Err(Abend::BadDigits));
    };
    let mut buffer = [0u8; 255];
    let size = usize::from(digits);
    put_signed(
        &mut buffer[..size],
        signed,
        Storage::Digits(Sign::Within),
        number < 0,
        number.unsigned_abs(),
    );
    into.add(&buffer[..size])?;
    Ok(Ok(()))
}

// Adds what is shown of a number item.
fn add_stored(
    into: &mut Text,
    signed: bool,
    storage: Storage,
    bytes: &[u8],
) -> Result<Result<(), Abend>, NoMemory>
    ensures { IfOk result (λ answer. with_bytes answer into.new
        ≡ and_then (number_shown signed storage bytes.now) (λ more. Ok (into.old ++ more))) }
{
    match storage {
        Storage::Digits(_) => {
            into.add(bytes)?;
            Ok(Ok(()))
        }
        Storage::Binary(digits) => {
            add_digits(into, signed, digits, number_in(signed, storage, bytes))
        }
        Storage::Packed(digits) => {
            add_digits(into, signed, digits, number_in(signed, storage, bytes))
        }
    }
}

fn add_place(into: &mut Text, form: Form, bytes: &[u8]) -> Result<Result<(), Abend>, NoMemory>
    ensures { IfOk result (λ answer. with_bytes answer into.new
        ≡ and_then (place_shown form bytes.now) (λ more. Ok (into.old ++ more))) }
{
    match form {
        Form::Number {
            signed,
            storage,
            ..
        } => add_stored(into, signed, storage, bytes),
        Form::Group => {
            into.add(bytes)?;
            Ok(Ok(()))
        }
        Form::Edited => {
            into.add(bytes)?;
            Ok(Ok(()))
        }
        Form::Text => {
            into.add(bytes)?;
            Ok(Ok(()))
        }
    }
}

fn add_operand(
    areas: &[Area],
    store: &Store,
    into: &mut Text,
    operand: &Operand,
) -> Result<Result<(), Abend>, NoMemory>
    ensures { IfOk result (λ answer. with_bytes answer into.new
        ≡ and_then (operand_shown (memory_of areas.now store.now) operand.now)
        (λ more. Ok (into.old ++ more))) }
{
    match operand {
        Operand::Place(place) => match reached(areas, store, place) {
            Err(abend) => Ok(Err(abend)),
            Ok(place) => add_place(into, place.form, store.bytes(place.spot)),
        },
        Operand::Number(number) => {
            add_number(into, number)?;
            Ok(Ok(()))
        }
        Operand::Text(text) => {
            into.add(text.as_slice())?;
            Ok(Ok(()))
        }
        Operand::Figure(figure) => {
            into.add(&[figure_byte(*figure)])?;
            Ok(Ok(()))
        }
    }
}

/// Puts the bytes of DISPLAY into an empty text, with LF at the end where `advance` says so. The
/// inner error is why the run ends.
pub fn displayed(
    areas: &[Area],
    store: &Store,
    into: &mut Text,
    operands: &[Operand],
    advance: bool,
) -> Result<Result<(), Abend>, NoMemory>
    requires { into.old ≡ [] }
    ensures { IfOk result (λ answer. with_bytes answer into.new
        ≡ displayed (memory_of areas.now store.now) operands.now advance) }
{
    for operand in operands {
        if let Err(abend) = add_operand(areas, store, into, operand)? {
            return Ok(Err(abend));
        }
    }
    if advance {
        into.add(b"\n")?;
    }
    Ok(Ok(()))
}
