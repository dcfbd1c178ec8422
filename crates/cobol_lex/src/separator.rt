//! Runs of separators.

ghost use Rattle.std.specs.Prelude.{◌≡◌, ◌==◌, ◌<◌, ◌≤◌, ℕ, true, length, slice_index};
ghost use Rattle.cob_base.specs.Bytes.{space};
ghost use Rattle.cobol_lex.specs.Byte.{is_separator};

use crate::byte::is_separator;
use crate::lanes::space_run;

/// Where the run of separators that begins at a place ends.
pub fn separators_end(bytes: &[u8], at: usize) -> usize
    requires { at < length bytes.now }
    ensures further { at < result }
    ensures within { result ≤ length bytes.now }
    ensures separators { (k : ℕ) → at < k → k < result →
        is_separator (slice_index bytes.now k) ≡ true }
{
    let mut end = at + 1;
    while end < bytes.len() {
        let passed = spaces(&bytes[end..]);
        if passed > 0 {
            end += passed;
        } else if is_separator(bytes[end]) {
            end += 1;
        } else {
            return end;
        }
    }
    end
}

/// How many of the first sixteen bytes are spaces before another byte; 0 of fewer than sixteen
/// bytes.
fn spaces(bytes: &[u8]) -> usize
    ensures within { result ≤ length bytes.now }
    ensures spaces { (k : ℕ) → k < result → (slice_index bytes.now k == space) ≡ true }
{
    if bytes.len() < 16 {
        0
    } else {
        space_run(bytes)
    }
}
