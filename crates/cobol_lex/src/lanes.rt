//! How many of sixteen bytes, counted from the first, are of one kind.

ghost use Rattle.std.specs.Prelude.{◌≡◌, ◌≤◌, ◌==◌, length};
ghost use Rattle.cob_base.specs.Bytes.{space};
ghost use Rattle.cob_base.specs.Spelling.{word_byte};
ghost use Rattle.cobol_lex.specs.Lanes.{IsRunIn, first_set};

use std::simd::prelude::*;

/// The place of the lowest set bit, or 16.
fn first_set(mask: u64) -> usize
    ensures { result ≡ first_set mask }
{
    if mask == 0 {
        16
    } else {
        mask.trailing_zeros() as usize
    }
}

/// How many spaces come first.
pub fn space_run(bytes: &[u8]) -> usize
    requires { 16 ≤ length bytes.now }
    ensures { IsRunIn (λ b. b == space) bytes.now result }
{
    let ends = u8x16::from_slice(bytes).simd_ne(u8x16::splat(b' '));
    first_set(ends.to_bitmask())
}

/// How many letters, digits and hyphens come first.
pub fn word_byte_run(bytes: &[u8]) -> usize
    requires { 16 ≤ length bytes.now }
    ensures { IsRunIn word_byte bytes.now result }
{
    let v = u8x16::from_slice(bytes);
    let from_a = (v | u8x16::splat(0x20)) - u8x16::splat(b'a');
    let from_0 = v - u8x16::splat(b'0');
    let no_letter = from_a.simd_ge(u8x16::splat(26));
    let no_digit = from_0.simd_ge(u8x16::splat(10));
    let ends = no_letter & no_digit & v.simd_ne(u8x16::splat(b'-'));
    first_set(ends.to_bitmask())
}
