//! Numbers as the bytes of an item spell them.

ghost use Rattle.std.specs.Prelude.{◌≡◌, ◌+◌, ◌-◌, ◌*◌, ◌^◌, ◌%◌, ◌<◌, ◌≤◌, length, unsigned_abs, IfSome};
ghost use Rattle.stored_forms.specs.Binary.{binary_size};
ghost use Rattle.stored_forms.specs.Item.{IsHeld};
ghost use Rattle.stored_forms.specs.Packed.{packed_size};
ghost use Rattle.cob_tree.specs.Digits.{digits_value};
ghost use Rattle.cob_store.specs.declared.area.Storage.TheVariants as stores;
ghost use Rattle.cob_store.specs.Number.{beside, digit_count, displayed_bytes, displayed_number, front, held_number, is_overpunched, is_stored, last, leading, negative, number_in, overpunched, padded, positive, sign_byte, signed_bytes, storage_of, trailing, within};

use crate::area::Storage;
use cob_tree::{Sign, Usage, digits_value};
use stored_forms::{
    binary_read, binary_size, binary_write, count_of_digits, packed_read, packed_size, packed_write,
};

// ---- how it is stored

/// How many digits a number has; at most the largest `u8`.
pub fn digit_count(whole: u8, part: u8) -> u8
    ensures { result ≡ digit_count whole part }
{
    whole.saturating_add(part)
}

/// How a number of so many digits is stored, by its USAGE and SIGN clauses.
pub fn storage_of(sign: Sign, usage: Usage, digits: u8) -> Storage
    ensures { result ≡ storage_of sign usage digits }
{
    match usage {
        Usage::Display => Storage::Digits(sign),
        Usage::Binary => Storage::Binary(digits),
        Usage::Packed => Storage::Packed(digits),
    }
}

// Whether a binary item of so many digits, 1 to 18, has so many bytes.
fn is_binary(digits: u8, places: usize) -> bool
    ensures { result ≡ is_stored binary_size digits places }
{
    digits >= 1 && digits <= 18 && places == binary_size(digits) as usize
}

// The same of a packed item.
fn is_packed(digits: u8, places: usize) -> bool
    ensures { result ≡ is_stored packed_size digits places }
{
    digits >= 1 && digits <= 18 && places == packed_size(digits) as usize
}

// ---- reading

fn is_overpunched(byte: u8) -> bool
    ensures { result ≡ is_overpunched byte }
{
    byte >= b'p' && byte <= b'y'
}

fn front(bytes: &[u8]) -> &[u8]
    ensures { result.now ≡ front bytes.now }
{
    &bytes[..bytes.len().saturating_sub(1)]
}

fn last(bytes: &[u8]) -> u8
    ensures { result ≡ last bytes.now }
{
    if bytes.len() > 0 {
        bytes[bytes.len() - 1]
    } else {
        0
    }
}

fn positive(number: Option<u64>) -> Option<i128>
    ensures value { result ≡ positive number }
    ensures short { IfSome result (λ z. unsigned_abs z < 2 ^ 64) }
{
    number.map(|digits| i128::from(digits))
}

fn negative(number: Option<u64>) -> Option<i128>
    ensures value { result ≡ negative number }
    ensures short { IfSome result (λ z. unsigned_abs z < 2 ^ 64) }
{
    number.map(|digits| -i128::from(digits))
}

// Reads a number with the sign within the last digit.
fn within(bytes: &[u8]) -> Option<i128>
    ensures value { result ≡ within bytes.now }
    ensures short { IfSome result (λ z. unsigned_abs z < 2 ^ 64) }
{
    let sign = last(bytes);
    if is_overpunched(sign) {
        let digits = digits_value(front(bytes))?;
        negative(Some(digits * 10 + u64::from(sign - b'p')))
    } else {
        positive(digits_value(bytes))
    }
}

// Reads a number with the sign separate from the digits.
fn beside(sign: u8, digits: Option<u64>) -> Option<i128>
    ensures value { result ≡ beside sign digits }
    ensures short { IfSome result (λ z. unsigned_abs z < 2 ^ 64) }
{
    if sign == b'+' {
        positive(digits)
    } else if sign == b'-' {
        negative(digits)
    } else {
        None
    }
}

fn displayed_number(signed: bool, sign: Sign, bytes: &[u8]) -> Option<i128>
    ensures value { result ≡ displayed_number signed sign bytes.now }
    ensures short { IfSome result (λ z. unsigned_abs z < 2 ^ 64) }
{
    if !signed {
        return positive(digits_value(bytes));
    }
    match sign {
        Sign::Within => within(bytes),
        Sign::SeparateLeading => beside(
            if bytes.len() > 0 { bytes[0] } else { 0 },
            digits_value(&bytes[bytes.len().min(1)..]),
        ),
        Sign::SeparateTrailing => beside(last(bytes), digits_value(front(bytes))),
    }
}

fn binary_number(signed: bool, digits: u8, bytes: &[u8]) -> Option<i128>
    ensures value { result ≡ number_in signed (stores.Binary digits) bytes.now }
    ensures short { IfSome result (λ z. unsigned_abs z < 2 ^ 64) }
{
    if is_binary(digits, bytes.len()) {
        binary_read(bytes, digits, signed)
    } else {
        None
    }
}

fn packed_number(signed: bool, digits: u8, bytes: &[u8]) -> Option<i128>
    ensures value { result ≡ number_in signed (stores.Packed digits) bytes.now }
    ensures short { IfSome result (λ z. unsigned_abs z < 2 ^ 64) }
{
    if is_packed(digits, bytes.len()) {
        packed_read(bytes, digits, signed)
    } else {
        None
    }
}

/// The number of an item that is signed or not, or `None` where its bytes are none that it stores.
pub fn number_in(signed: bool, storage: Storage, bytes: &[u8]) -> Option<i128>
    ensures value { result ≡ number_in signed storage bytes.now }
    ensures short { IfSome result (λ z. unsigned_abs z < 2 ^ 64) }
{
    match storage {
        Storage::Digits(sign) => displayed_number(signed, sign, bytes),
        Storage::Binary(digits) => binary_number(signed, digits, bytes),
        Storage::Packed(digits) => packed_number(signed, digits, bytes),
    }
}

// ---- writing

// Puts the last digits of a number of at most twenty digits.
fn put_short(into: &mut [u8], number: u64)
    ensures { into.new ≡ padded (length into.old) number }
{
    let mut rest = number;
    let mut at = into.len();
    while at > 0 {
        at -= 1;
        into[at] = b'0' + (rest % 10) as u8;
        rest /= 10;
    }
}

// The same for any number, in longer arithmetic.
fn put_long(into: &mut [u8], number: u128)
    ensures { into.new ≡ padded (length into.old) number }
{
    let mut rest = number;
    let mut at = into.len();
    while at > 0 {
        at -= 1;
        into[at] = b'0' + (rest % 10) as u8;
        rest /= 10;
    }
}

/// Puts the last digits of a number, as many as fit.
pub fn put_digits(into: &mut [u8], number: u128)
    ensures { into.new ≡ padded (length into.old) number }
{
    match u64::try_from(number) {
        Ok(short) => put_short(into, short),
        Err(_) => put_long(into, number),
    }
}

fn sign_byte(minus: bool) -> u8
    ensures { result ≡ sign_byte minus }
{
    if minus { b'-' } else { b'+' }
}

// Puts the digits of a negative number, the last digit with the sign.
fn put_overpunched(into: &mut [u8], number: u128)
    ensures { into.new ≡ overpunched (length into.old) number }
{
    let size = into.len();
    if size > 0 {
        put_digits(&mut into[..size - 1], number / 10);
        into[size - 1] = b'p' + (number % 10) as u8;
    }
}

fn put_leading(into: &mut [u8], minus: bool, number: u128)
    ensures { into.new ≡ leading (length into.old) minus number }
{
    if into.len() > 0 {
        put_digits(&mut into[1..], number);
        into[0] = sign_byte(minus);
    }
}

fn put_trailing(into: &mut [u8], minus: bool, number: u128)
    ensures { into.new ≡ trailing (length into.old) minus number }
{
    let size = into.len();
    if size > 0 {
        put_digits(&mut into[..size - 1], number);
        into[size - 1] = sign_byte(minus);
    }
}

fn put_displayed(into: &mut [u8], signed: bool, sign: Sign, minus: bool, number: u128)
    ensures { into.new ≡ displayed_bytes signed sign (length into.old) minus number }
{
    if !signed {
        put_digits(into, number);
        return;
    }
    match sign {
        Sign::Within => {
            if minus {
                put_overpunched(into, number);
            } else {
                put_digits(into, number);
            }
        }
        Sign::SeparateLeading => put_leading(into, minus, number),
        Sign::SeparateTrailing => put_trailing(into, minus, number),
    }
}

// The low digits of a number. Most numbers have no others, and dividing would take longer than all
// else here.
fn low_digits(digits: u8, number: u128) -> u64
    requires { digits ≤ 18 }
    ensures value { result ≡ number % 10 ^ digits }
    ensures short { result < 10 ^ digits }
{
    let count = count_of_digits(digits);
    match u64::try_from(number) {
        Ok(short) => { if short < count { short } else { short % count } }
        Err(_) => (number % u128::from(count)) as u64,
    }
}

// What an item of so many digits, signed or not, holds of a number.
fn held_number(signed: bool, digits: u8, minus: bool, number: u128) -> i128
    requires { digits ≤ 18 }
    ensures value { result ≡ held_number signed digits minus number }
    ensures held { IsHeld result digits signed }
{
    let low = i128::from(low_digits(digits, number));
    if signed && minus { -low } else { low }
}

fn put_binary(into: &mut [u8], signed: bool, digits: u8, minus: bool, number: u128)
    ensures { into.new ≡ signed_bytes signed (stores.Binary digits) (length into.old) minus
        number }
{
    if is_binary(digits, into.len()) {
        binary_write(
            held_number(signed, digits, minus, number),
            digits,
            signed,
            into,
        );
    } else {
        into.fill(0);
    }
}

fn put_packed(into: &mut [u8], signed: bool, digits: u8, minus: bool, number: u128)
    ensures { into.new ≡ signed_bytes signed (stores.Packed digits) (length into.old) minus
        number }
{
    if is_packed(digits, into.len()) {
        packed_write(
            held_number(signed, digits, minus, number),
            digits,
            signed,
            into,
        );
    } else {
        into.fill(0);
    }
}

/// Puts a number, `minus` where it is negative, in an item that is signed or not.
pub fn put_signed(into: &mut [u8], signed: bool, storage: Storage, minus: bool, number: u128)
    ensures { into.new ≡ signed_bytes signed storage (length into.old) minus number }
{
    match storage {
        Storage::Digits(sign) => put_displayed(into, signed, sign, minus, number),
        Storage::Binary(digits) => put_binary(into, signed, digits, minus, number),
        Storage::Packed(digits) => put_packed(into, signed, digits, minus, number),
    }
}
