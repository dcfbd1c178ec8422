//! What contracts see of devices.

use crate::{Bench, Device};

/// A device, as contracts see it.
pub trait Watched {
    ghost use Rattle.file_model.specs.operations.Seen.{Seen};

    ghost seen: { Self → Seen };
}

impl Watched for Box<dyn Device> {
    ghost seen = { λ b. record {
      name = (Device-box b).named b.value;
      files = (Device-box b).told b.value;
      faults = (Device-box b).faults b.value;
    } };
}

/// The devices of a bench, as contracts see them.
pub trait Shown {
    ghost use Rattle.std.specs.Prelude.{List};
    ghost use Rattle.file_model.specs.operations.Seen.{Seen};

    /// Those on the bench, and after them those that were taken off.
    ghost all: { Self → List Seen };

    /// Those on the bench.
    ghost on: { Self → List Seen };
}

impl Shown for Bench {
    ghost use Rattle.std.specs.Prelude.{map, take};

    ghost all = { λ bench. map (λ b. record {
      name = (Device-box b).named b.value;
      files = (Device-box b).told b.value;
      faults = (Device-box b).faults b.value;
    }) bench.devices.items };

    ghost on = { λ bench. take bench.left (map (λ b. record {
      name = (Device-box b).named b.value;
      files = (Device-box b).told b.value;
      faults = (Device-box b).faults b.value;
    }) bench.devices.items) };
}
