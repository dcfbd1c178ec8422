//! Binary items: two's complement, the most significant byte first.

ghost use Rattle.std.specs.Prelude.{◌≡◌, ◌*◌, ◌^◌, ◌<◌, ◌≤◌, length, unsigned_abs, IfSome};
ghost use Rattle.std.specs.Int.Digits.{number_from_digits};
ghost use Rattle.stored_forms.specs.Item.{IsHeld};
ghost use Rattle.stored_forms.specs.Places.{low_digits};
ghost use Rattle.stored_forms.specs.Binary.{binary_bytes, binary_size, binary_value, signed_number, twos_complement};

use crate::item::is_held;

/// How many bytes an item of so many digits has.
pub fn binary_size(digits: u8) -> u32
    ensures { result ≡ binary_size digits }
{
    match digits {
        0..=4 => 2,
        5..=9 => 4,
        _ => 8,
    }
}

// How many numbers so many bytes can hold.
fn count_of(size: usize) -> u128
    requires { size ≤ 8 }
    ensures { result ≡ 256 ^ size }
{
    match size {
        0 => 1,
        1 => 0x100,
        2 => 0x1_0000,
        3 => 0x100_0000,
        4 => 0x1_0000_0000,
        5 => 0x100_0000_0000,
        6 => 0x1_0000_0000_0000,
        7 => 0x100_0000_0000_0000,
        _ => 0x1_0000_0000_0000_0000,
    }
}

fn twos_complement(size: usize, value: i128) -> u64
    requires size { size ≤ 8 }
    requires value { 2 * unsigned_abs value < 256 ^ size }
    ensures { result ≡ twos_complement size value }
{
    let magnitude = value.unsigned_abs();
    if value < 0 {
        (count_of(size) - magnitude) as u64
    } else {
        magnitude as u64
    }
}

// Puts the low bytes of the number, the most significant first.
fn put_bytes(number: u64, into: &mut [u8])
    ensures { into.new ≡ low_digits 256 (length into.old) number }
{
    let mut rest = number;
    for place in (0..into.len()).rev() {
        into[place] = (rest % 256) as u8;
        rest /= 256;
    }
}

/// Writes the value as the item stores it.
pub fn binary_write(value: i128, digits: u8, signed: bool, into: &mut [u8])
    requires some_digits { 1 ≤ digits }
    requires digits { digits ≤ 18 }
    requires value { IsHeld value digits signed }
    requires size { length into.old ≡ binary_size digits }
    ensures { into.new ≡ binary_bytes value digits }
{
    put_bytes(twos_complement(into.len(), value), into);
}

// The number that the bytes spell, the most significant first.
fn number_of(bytes: &[u8]) -> u64
    requires { length bytes.now ≤ 8 }
    ensures value { result ≡ number_from_digits 256 bytes.now }
    ensures below { result < 256 ^ length bytes.now }
{
    let mut number = 0;
    for byte in bytes {
        number = number * 256 + *byte as u64;
    }
    number
}

fn signed_number(size: usize, number: u64) -> i128
    requires { size ≤ 8 }
    ensures { result ≡ signed_number size number }
{
    let count = count_of(size);
    if 2 * (number as u128) < count {
        number as i128
    } else {
        number as i128 - count as i128
    }
}

/// Reads the value that the item stores.
///
/// `None` where it has more digits than the item, or is negative and the item has no sign.
pub fn binary_read(bytes: &[u8], digits: u8, signed: bool) -> Option<i128>
    requires some_digits { 1 ≤ digits }
    requires digits { digits ≤ 18 }
    requires size { length bytes.now ≡ binary_size digits }
    ensures value { result ≡ binary_value bytes.now digits signed }
    ensures short { IfSome result (λ value. unsigned_abs value < 10 ^ digits) }
{
    let value = signed_number(bytes.len(), number_of(bytes));
    if is_held(value, digits, signed) {
        Some(value)
    } else {
        None
    }
}
