//! The device of a file.

ghost use Rattle.std.specs.Prelude.{◌≡◌, ◌<◌, IfSome, MatchOption, slice_get};
ghost use Rattle.std.specs.Str.{bytes_eq};
ghost use Rattle.file_model.specs.operations.Seen.{IsFirstAt, Nowhere};

use crate::Bench;
use crate::operations::calls::device_name;
use crate::operations::watched::Shown;

fn is_named(bench: &Bench, at: usize, name: &[u8]) -> bool
    requires { at < bench.now.left }
    ensures { IfSome (slice_get (⟦<Bench as Shown>⟧.all bench.now) at)
        (λ device. result ≡ bytes_eq device.name name.now) }
{
    device_name(&bench.devices[at]) == name
}

/// The place of the first device on the bench that has that name.
pub fn first_of(bench: &Bench, name: &[u8]) -> Option<usize>
    ensures { let devices = ⟦<Bench as Shown>⟧.on bench.now in
        MatchOption result (Nowhere name.now devices) (IsFirstAt name.now devices) }
{
    for at in 0..bench.left {
        if is_named(bench, at, name) {
            return Some(at);
        }
    }
    None
}
