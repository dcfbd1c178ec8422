//! Devices on a bench.

ghost use Rattle.std.specs.Prelude.{◌≡◌, ◌≤◌, take, vec_len};

use crate::device::Device;

/// The devices on a bench, and after them those that failed and were taken off.
#[derive(Drop)]
pub struct Bench {
    pub devices: Vec<Box<dyn Device>>,
    /// How many of the devices, the first ones, are on the bench.
    pub left: usize,
    ghost within: { left ≤ vec_len devices },
}

impl Bench {
    /// A bench with all of these devices.
    pub fn new(devices: Vec<Box<dyn Device>>) -> Bench
        ensures devices { result.devices ≡ devices }
        ensures left { result.left ≡ vec_len devices }
    {
        let left = devices.len();
        Bench { devices, left }
    }

    /// Drops the devices that were taken off the bench.
    pub fn drop_failed(&mut self)
        ensures devices { self.new.devices.items ≡ take self.old.left self.old.devices.items }
        ensures left { self.new.left ≡ self.old.left }
    {
        self.devices.truncate(self.left);
    }
}
