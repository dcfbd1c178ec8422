//! Writes all of some bytes to a sink that has room for them, piece by piece.
//!
//! A sink takes as much of a piece as it likes, so a caller goes on with what is left. What went
//! out, whatever the sink does, `Takes` in specs/giving/Giving.antt says.

ghost use Rattle.std.specs.Prelude.{◌≡◌, ◌≤◌, length, drop, true, false};
ghost use Rattle.cob_base.specs.Faults.{Rose};
ghost use Rattle.cob_base.specs.Sink.{sink_call};
ghost use Rattle.cob_base.specs.giving.Giving.{Gains, Takes};

use crate::{Gave, Sink};

/// Writes all these bytes, for which there is room, without allocating; false where the sink
/// failed.
pub fn give_all<K: Sink>(sink: &mut K, bytes: &[u8]) -> bool
    requires { length bytes.now ≤ K.spare sink.old }
    ensures front { Takes bytes.now (sink_call K.held K.faults sink.old sink.new) }
    ensures all { result ≡ true → Gains bytes.now (sink_call K.held K.faults sink.old sink.new) }
    ensures failed { result ≡ false → Rose (K.faults sink.old) (K.faults sink.new) }
    ensures later { K.faults sink.old ≤ K.faults sink.new }
{
    let mut rest = bytes;
    while !rest.is_empty() {
        match sink.give(rest) {
            Gave::All => return true,
            Gave::Part(count) => rest = behind(rest, count),
            Gave::Failed => return false,
        }
    }
    true
}

// The bytes after the first `count`.
fn behind(bytes: &[u8], count: usize) -> &[u8]
    requires { count ≤ length bytes.now }
    ensures { result.now ≡ drop count bytes.now }
{
    &bytes[count..]
}
