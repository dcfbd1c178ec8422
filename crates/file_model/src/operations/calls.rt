//! Calls of a device on the bench.

ghost use Rattle.std.specs.Prelude.{◌≡◌, ◌≢◌, ◌<◌, length};
ghost use Rattle.file_model.specs.Told.{Changes, Counts, GivesAtMost, Opens, Reads};
ghost use Rattle.file_model.specs.Told.{appended, open_fails, put_fails, read_fails, replaced, shut};
ghost use Rattle.file_model.specs.operations.Calls.{Called};

use crate::operations::watched::{Shown, Watched};
use crate::{Bench, Device, Got, Opened, Put};
use cob_tree::How;

/// The name of a device.
pub fn device_name(device: &Box<dyn Device>) -> &[u8]
    ensures { result.now ≡ (⟦<Box<dyn Device> as Watched>⟧.seen device.now).name }
{
    device.name()
}

fn open_one(device: &mut Box<dyn Device>, name: &[u8], how: How) -> Opened
    ensures name { (⟦<Box<dyn Device> as Watched>⟧.seen device.new).name
        ≡ (⟦<Box<dyn Device> as Watched>⟧.seen device.old).name }
    ensures told { Opens (⟦<Box<dyn Device> as Watched>⟧.seen device.old).files name.now how result
        (⟦<Box<dyn Device> as Watched>⟧.seen device.new).files }
    ensures cause { Counts (open_fails result)
        (⟦<Box<dyn Device> as Watched>⟧.seen device.old).faults
        (⟦<Box<dyn Device> as Watched>⟧.seen device.new).faults }
{
    device.open_file(name, how)
}

fn close_one(device: &mut Box<dyn Device>, name: &[u8]) -> Put
    ensures name { (⟦<Box<dyn Device> as Watched>⟧.seen device.new).name
        ≡ (⟦<Box<dyn Device> as Watched>⟧.seen device.old).name }
    ensures memory { result ≢ Put.NoMemory }
    ensures told { Changes (⟦<Box<dyn Device> as Watched>⟧.seen device.old).files name.now shut result
        (⟦<Box<dyn Device> as Watched>⟧.seen device.new).files }
    ensures cause { Counts (put_fails result)
        (⟦<Box<dyn Device> as Watched>⟧.seen device.old).faults
        (⟦<Box<dyn Device> as Watched>⟧.seen device.new).faults }
{
    device.close_file(name)
}

fn read_one(device: &mut Box<dyn Device>, name: &[u8], into: &mut [u8]) -> Got
    ensures name { (⟦<Box<dyn Device> as Watched>⟧.seen device.new).name
        ≡ (⟦<Box<dyn Device> as Watched>⟧.seen device.old).name }
    ensures bound { GivesAtMost (length into.old) result }
    ensures told { Reads (⟦<Box<dyn Device> as Watched>⟧.seen device.old).files name.now result
        into.old into.new
        (⟦<Box<dyn Device> as Watched>⟧.seen device.new).files }
    ensures cause { Counts (read_fails result)
        (⟦<Box<dyn Device> as Watched>⟧.seen device.old).faults
        (⟦<Box<dyn Device> as Watched>⟧.seen device.new).faults }
{
    device.read_next(name, into)
}

fn write_one(device: &mut Box<dyn Device>, name: &[u8], bytes: &[u8]) -> Put
    ensures name { (⟦<Box<dyn Device> as Watched>⟧.seen device.new).name
        ≡ (⟦<Box<dyn Device> as Watched>⟧.seen device.old).name }
    ensures told { Changes (⟦<Box<dyn Device> as Watched>⟧.seen device.old).files name.now
        (appended bytes.now) result
        (⟦<Box<dyn Device> as Watched>⟧.seen device.new).files }
    ensures cause { Counts (put_fails result)
        (⟦<Box<dyn Device> as Watched>⟧.seen device.old).faults
        (⟦<Box<dyn Device> as Watched>⟧.seen device.new).faults }
{
    device.write_next(name, bytes)
}

fn rewrite_one(device: &mut Box<dyn Device>, name: &[u8], bytes: &[u8]) -> Put
    ensures name { (⟦<Box<dyn Device> as Watched>⟧.seen device.new).name
        ≡ (⟦<Box<dyn Device> as Watched>⟧.seen device.old).name }
    ensures told { Changes (⟦<Box<dyn Device> as Watched>⟧.seen device.old).files name.now
        (replaced bytes.now) result
        (⟦<Box<dyn Device> as Watched>⟧.seen device.new).files }
    ensures cause { Counts (put_fails result)
        (⟦<Box<dyn Device> as Watched>⟧.seen device.old).faults
        (⟦<Box<dyn Device> as Watched>⟧.seen device.new).faults }
{
    device.rewrite_last(name, bytes)
}

/// Calls the device at that place of the bench.
pub fn open_at(bench: &mut Bench, at: usize, name: &[u8], how: How) -> Opened
    requires { at < bench.old.left }
    ensures left { bench.new.left ≡ bench.old.left }
    ensures called { Called at (λ old now. Opens old name.now how result now) (open_fails result)
        (⟦<Bench as Shown>⟧.all bench.old) (⟦<Bench as Shown>⟧.all bench.new) }
{
    let answer = open_one(&mut bench.devices[at], name, how);
    answer
}

/// Calls the device at that place of the bench.
pub fn close_at(bench: &mut Bench, at: usize, name: &[u8]) -> Put
    requires { at < bench.old.left }
    ensures left { bench.new.left ≡ bench.old.left }
    ensures memory { result ≢ Put.NoMemory }
    ensures called { Called at (λ old now. Changes old name.now shut result now) (put_fails result)
        (⟦<Bench as Shown>⟧.all bench.old) (⟦<Bench as Shown>⟧.all bench.new) }
{
    let answer = close_one(&mut bench.devices[at], name);
    answer
}

/// Calls the device at that place of the bench.
pub fn read_at(bench: &mut Bench, at: usize, name: &[u8], into: &mut [u8]) -> Got
    requires { at < bench.old.left }
    ensures left { bench.new.left ≡ bench.old.left }
    ensures bound { GivesAtMost (length into.old) result }
    ensures called { Called at (λ old now. Reads old name.now result into.old into.new now) (read_fails result)
        (⟦<Bench as Shown>⟧.all bench.old) (⟦<Bench as Shown>⟧.all bench.new) }
{
    let answer = read_one(&mut bench.devices[at], name, into);
    answer
}

/// Calls the device at that place of the bench.
pub fn write_at(bench: &mut Bench, at: usize, name: &[u8], bytes: &[u8]) -> Put
    requires { at < bench.old.left }
    ensures left { bench.new.left ≡ bench.old.left }
    ensures called { Called at (λ old now. Changes old name.now (appended bytes.now) result now) (put_fails result)
        (⟦<Bench as Shown>⟧.all bench.old) (⟦<Bench as Shown>⟧.all bench.new) }
{
    let answer = write_one(&mut bench.devices[at], name, bytes);
    answer
}

/// Calls the device at that place of the bench.
pub fn rewrite_at(bench: &mut Bench, at: usize, name: &[u8], bytes: &[u8]) -> Put
    requires { at < bench.old.left }
    ensures left { bench.new.left ≡ bench.old.left }
    ensures called { Called at (λ old now. Changes old name.now (replaced bytes.now) result now) (put_fails result)
        (⟦<Bench as Shown>⟧.all bench.old) (⟦<Bench as Shown>⟧.all bench.new) }
{
    let answer = rewrite_one(&mut bench.devices[at], name, bytes);
    answer
}
