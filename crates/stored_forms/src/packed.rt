//! Packed items: a half byte for each digit, and one for the sign.

ghost use Rattle.std.specs.Prelude.{◌≡◌, ◌^◌, ◌/◌, ◌%◌, ◌<◌, ◌≤◌, IfSome, IsFalse, IsTrue, length, map, unsigned_abs};
ghost use Rattle.stored_forms.specs.Item.{IsHeld};
ghost use Rattle.stored_forms.specs.Places.{low_digits};
ghost use Rattle.stored_forms.specs.Packed.{decimal_number, halves_of, packed_bytes, packed_size, packed_value, pair_byte, sign_half, value_by_sign};

// How many values a half byte has.
const HALF: u8 = 16;

// The half bytes for a sign.
const PLUS: u8 = 0xC;

const MINUS: u8 = 0xD;

const UNSIGNED: u8 = 0xF;

/// How many bytes an item of so many digits has.
pub fn packed_size(digits: u8) -> u32
    ensures { result ≡ packed_size digits }
{
    digits as u32 / 2 + 1
}

fn sign_half(value: i128, signed: bool) -> u8
    ensures { result ≡ sign_half value signed }
{
    if value < 0 {
        MINUS
    } else if signed {
        PLUS
    } else {
        UNSIGNED
    }
}

// The byte of two digits.
fn pair_byte(pair: u8) -> u8
    requires { pair < 100 }
    ensures { result ≡ pair_byte pair }
{
    pair / 10 * HALF + pair % 10
}

// Puts the low digits of the number, two in a byte, the most significant first.
fn put_pairs(number: u64, into: &mut [u8])
    ensures { into.new ≡ map pair_byte (low_digits 100 (length into.old) number) }
{
    let mut rest = number;
    for place in (0..into.len()).rev() {
        into[place] = pair_byte((rest % 100) as u8);
        rest /= 100;
    }
}

/// Writes the value as the item stores it.
pub fn packed_write(value: i128, digits: u8, signed: bool, into: &mut [u8])
    requires some_digits { 1 ≤ digits }
    requires digits { digits ≤ 18 }
    requires value { IsHeld value digits signed }
    requires size { length into.old ≡ packed_size digits }
    ensures { into.new ≡ packed_bytes value digits signed }
{
    let number = value.unsigned_abs() as u64;
    let last = into.len() - 1;
    put_pairs(number / 10, &mut into[..last]);
    into[last] = (number % 10) as u8 * HALF + sign_half(value, signed);
}

// The number that the half bytes spell as digits, where none is above 9.
fn number_of_pairs(bytes: &[u8]) -> Option<u64>
    requires { length bytes.now ≤ 9 }
    ensures value { result ≡ decimal_number (halves_of bytes.now) }
    ensures short { IfSome result (λ number. number < 10 ^ 18) }
{
    let mut number = 0;
    for byte in bytes {
        let high = *byte / HALF;
        let low = *byte % HALF;
        if high > 9 || low > 9 {
            return None;
        }
        number = number * 100 + (high * 10 + low) as u64;
    }
    Some(number)
}

// Whether the half byte that fills the front, where there is one, is 0.
fn is_filled(digits: u8, first: u8) -> bool
    ensures yes { IsTrue result → digits % 2 ≡ 0 → first / 16 ≡ 0 }
    ensures no { IsFalse result → (digits % 2 ≡ 0) × (0 < first / 16) }
{
    digits % 2 == 1 || first < HALF
}

// The number with its sign, where the item can have that one.
fn value_by_sign(sign: u8, signed: bool, number: u64) -> Option<i128>
    ensures { result ≡ value_by_sign sign signed number }
{
    match sign {
        PLUS | UNSIGNED => Some(number as i128),
        MINUS if signed => Some(-(number as i128)),
        _ => None,
    }
}

/// Reads the value that the item stores.
///
/// `None` where a digit is above 9, the filling half byte isn't 0, or the sign is none of C, D and
/// F, or is D and the item has no sign.
pub fn packed_read(bytes: &[u8], digits: u8, signed: bool) -> Option<i128>
    requires some_digits { 1 ≤ digits }
    requires digits { digits ≤ 18 }
    requires size { length bytes.now ≡ packed_size digits }
    ensures value { result ≡ packed_value bytes.now digits signed }
    ensures short { IfSome result (λ value. unsigned_abs value < 10 ^ digits) }
{
    let last = bytes[bytes.len() - 1];
    if !is_filled(digits, bytes[0]) || last / HALF > 9 {
        return None;
    }
    let front = number_of_pairs(&bytes[..bytes.len() - 1])?;
    value_by_sign(last % HALF, signed, front * 10 + (last / HALF) as u64)
}
