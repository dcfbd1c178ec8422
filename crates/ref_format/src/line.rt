//! Lines of a source.

ghost use Rattle.std.specs.Prelude.{◌≡◌, ◌≢◌, ◌<◌, ◌≤◌, ◌∷◌, ℕ, length, slice_index};
ghost use Rattle.std.specs.Str.Lines.{lines, strip_carriage_return};

use std::simd::prelude::*;

/// The first line of a source that isn't empty, and the source after it.
///
/// A line ends at LF, and loses the CR directly before it.
pub fn first_line(bytes: &[u8]) -> (&[u8], &[u8])
    requires { 0 < length bytes.now }
    ensures first { lines bytes.now ≡ result.0.now ∷ lines result.1.now }
    ensures shorter { length result.1.now < length bytes.now }
{
    let end = line_end(bytes);
    if end == bytes.len() {
        (bytes, &[])
    } else {
        (without_return(&bytes[..end]), &bytes[end + 1..])
    }
}

/// The place of the first LF; the length, where there is none.
fn line_end(bytes: &[u8]) -> usize
    ensures within { result ≤ length bytes.now }
    ensures before { (k : ℕ) → k < result → slice_index bytes.now k ≢ 10 }
    ensures found { result < length bytes.now → slice_index bytes.now result ≡ 10 }
{
    let mut at = 0;
    while at < bytes.len() {
        let passed = without_line_feed(&bytes[at..]);
        if passed > 0 {
            at += passed;
        } else if bytes[at] == b'\n' {
            return at;
        } else {
            at += 1;
        }
    }
    at
}

/// How many of the first sixteen bytes are before an LF; 0 of fewer than sixteen bytes.
fn without_line_feed(bytes: &[u8]) -> usize
    ensures within { result ≤ length bytes.now }
    ensures before { (k : ℕ) → k < result → slice_index bytes.now k ≢ 10 }
{
    if bytes.len() < 16 {
        return 0;
    }
    let ends = u8x16::from_slice(bytes)
        .simd_eq(u8x16::splat(b'\n'))
        .to_bitmask();
    if ends == 0 {
        16
    } else {
        ends.trailing_zeros() as usize
    }
}

fn without_return(line: &[u8]) -> &[u8]
    ensures { result.now ≡ strip_carriage_return line.now }
{
    match line {
        [front @ .., b'\r'] => front,
        _ => line,
    }
}
