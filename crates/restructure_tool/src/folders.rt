//! The words over the current folder and the folder `second` in it.

ghost use Rattle.std.specs.Prelude.{◌≡◌, map, string_bytes, codes, IfOk, OnErr};
ghost use Rattle.cob_base.specs.Source.{source_call};
ghost use Rattle.cob_base.specs.Sink.{sink_call};
ghost use Rattle.restructure_tool.specs.Answered.{IsStarved};
ghost use Rattle.restructure_tool.specs.Folders.{Serves};

use crate::subfolder::Subfolder;
use cob_base::{NoMemory, Sink, Source, Text};
use file_model::folder::FolderDevice;
use file_model::{Bench, Device, NullDevice};
use restructure_asks::{Status, program};
use std::alloc::Global;

/// Does what the command line asks, over a bench with the current folder under the name DISK and a
/// device NULL, and one with the folder `second` in its place.
///
/// Both are made here: of devices that a function gives out less is known.
pub fn over_folders<S: Source, K: Sink, N: Sink>(
    rt: &HostRuntime,
    words: Result<Vec<String>, NoMemory>,
    source: &mut S,
    out: &mut K,
    notes: &mut N,
) -> Result<Status, NoMemory>
    ensures words { IfOk result (λ status. IfOk words (λ words. Serves
        (map string_bytes words.items) (source_call S.left S.faults source.old source.new)
        (sink_call K.held K.faults out.old out.new)
        (sink_call N.held N.faults notes.old notes.new) status)) }
    ensures wordless { IfOk result (λ status. OnErr words (IsStarved
        (source_call S.left S.faults source.old source.new)
        (sink_call K.held K.faults out.old out.new)
        (sink_call N.held N.faults notes.old notes.new) status)) }

    // where memory ran out for the devices
    ensures unread { OnErr result (source.new ≡ source.old) }
    ensures unwritten { OnErr result (out.new ≡ out.old) }
    ensures unnoted { OnErr result (notes.new ≡ notes.old) }
{
    let alloc = rt.alloc();
    let inside = Subfolder {
        alloc,
        outer: *rt,
        name: "second",
    };
    let disk = FolderDevice::new(alloc, b"DISK", *rt)?;
    let other_disk = FolderDevice::new(alloc, b"DISK", inside)?;
    let mut devices: Vec<Box<dyn Device>> = Vec::new(alloc);
    devices.push(Box::new(alloc, disk)?)?;
    devices.push(Box::new(alloc, null_device(alloc)?)?)?;
    let mut bench = Bench::new(devices);
    let mut others: Vec<Box<dyn Device>> = Vec::new(alloc);
    others.push(Box::new(alloc, other_disk)?)?;
    others.push(Box::new(alloc, null_device(alloc)?)?)?;
    let mut second = Bench::new(others);
    let status = program(alloc, words, source, out, notes, &mut bench, &mut second);
    bench.drop_failed();
    second.drop_failed();
    Ok(status)
}

fn null_device(alloc: Global) -> Result<NullDevice, NoMemory>
    ensures { IfOk result (λ device. device.name ≡ codes "NULL") }
{
    let mut name = Text::new(alloc);
    name.add(b"NULL")?;
    Ok(NullDevice { name })
}
