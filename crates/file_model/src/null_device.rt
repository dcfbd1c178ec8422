//! A device that has every file and keeps nothing.

use crate::device::{Device, Got, Opened, Put};
use cob_base::Text;
use cob_tree::How;

/// Opens every name, reads the end and drops what is written. Contracts know none of its files; it
/// never fails.
#[derive(Debug, Drop)]
pub struct NullDevice {
    pub name: Text,
}

impl Device for NullDevice {
    ghost use Rattle.std.specs.Prelude.{None};

    ghost named = { λ d. d.name };

    ghost told = { λ _. None };

    ghost faults = { λ _. 0 };

    fn name(&self) -> &[u8] {
        self.name.as_slice()
    }

    fn open_file(&mut self, _file: &[u8], _how: How) -> Opened {
        Opened::Ready
    }

    fn read_next(&mut self, _file: &[u8], _into: &mut [u8]) -> Got {
        Got::End
    }

    fn write_next(&mut self, _file: &[u8], _bytes: &[u8]) -> Put {
        Put::Done
    }

    fn rewrite_last(&mut self, _file: &[u8], _bytes: &[u8]) -> Put {
        Put::Done
    }

    fn close_file(&mut self, _file: &[u8]) -> Put {
        Put::Done
    }

    fn faults(&self) -> u64 {
        0
    }
}
