//! What passes between the host and the tool: the words, and the exit status.

ghost use Rattle.std.specs.Prelude.{◌≡◌, drop};
ghost use Rattle.std.specs.Process.{exit_status};
ghost use Rattle.restructure_asks.specs.Status.{status_number};

use cob_base::NoMemory;
use restructure_asks::Status;
use std::process::ExitCode;
use std::{env, io};

/// The words after the program's name; none where they aren't text, which is not an ask.
pub fn arguments(rt: &HostRuntime) -> Result<Vec<String>, NoMemory> {
    match env::args(rt) {
        Ok(all) => Ok(after_name(all.collect(rt.alloc())?)),
        Err(error) if error.kind() == io::ErrorKind::OutOfMemory => Err(NoMemory),
        Err(_) => Ok(Vec::new(rt.alloc())),
    }
}

// All arguments but the first.
fn after_name(mut all: Vec<String>) -> Vec<String>
    ensures { result.items ≡ drop 1 all.items }
{
    if !all.is_empty() {
        drop(all.remove(0));
    }
    all
}

/// The exit status is the number of the status.
pub fn exit_code(status: Status) -> ExitCode
    ensures { exit_status result ≡ status_number status }
{
    ExitCode::from(status.number())
}
